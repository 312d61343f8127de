//! Tests of what posts, moderators' answers, mail to a list's other addresses and timed runs do.
#![tactic(auto)]

#[cfg(test)]
mod archive;
#[cfg(test)]
mod bounces;
#[cfg(test)]
mod calls;
#[cfg(test)]
mod confirmations;
#[cfg(test)]
mod examples;
#[cfg(test)]
mod mails;
#[cfg(test)]
mod moderation;
#[cfg(test)]
mod posts;
#[cfg(test)]
mod program;
#[cfg(test)]
mod returned_posts;
#[cfg(test)]
mod rules;
#[cfg(test)]
mod subscriptions;
#[cfg(test)]
mod timed_bounces;
#[cfg(test)]
mod timed_digests;
#[cfg(test)]
mod timed_runs;
#[cfg(test)]
mod verdicts;
