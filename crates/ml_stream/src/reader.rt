// Reads the elements of the stream from a source of bytes.
ghost use Rattle.std.specs.Prelude.{◌≡◌, ◌<◌, ◌≤◌, ◌++◌, ◌^◌, [], ℕ, List, Some, None, IfOk, IfSome, IfErr, OnOk, OnErr, IsErrOf, MatchBool, length};
ghost use Rattle.ml_base.specs.Faults.{Rose, HasCause};
ghost use Rattle.ml_base.specs.Bytes.{Text};
ghost use Rattle.ml_base.specs.Name.{set_of};
ghost use Rattle.ml_base.specs.Address.{address_of};
ghost use Rattle.ml_base.specs.Numbers.{moment_in};
ghost use Rattle.ml_stream.specs.Stream.{length_at, content_at, comma_at, element_at, item_number_of, positive_within, key_of, any_bytes, add_at, remove_at, deliver_at, sent_at, floor_at, rekey_at, act_at, elements_at, item_at, letter_of};
ghost use Rattle.ml_stream.specs.Reading.{Stands, Reads, Steps, EndsEarly, Fails, IsCut, IsNoItem, IsUnfinished};
ghost use Rattle.ml_plain.specs.Items.{IsAct, IsItem};

use crate::StreamError;
use hex::{decode_to_slice, encode_to_slice};
use ml_base::{
    Address, Bytes, LAST_DRAWN, LAST_ITEM, LAST_MOMENT, LONGEST_MESSAGE, LONGEST_PATH, Set,
    is_next_digit, number_within,
};
use ml_plain::{Act, Item};
use ml_site::{Failed, Source};
use std::alloc::Global;

// The kinds of items. Every kind begins with a letter of its own.
#[derive(Clone, Copy)]
pub(crate) enum Letter {
    Add,
    Deliver,
    Floor,
    Rekey,
    Remove,
    Sent,
    Timed,
}

fn read_letter(byte: u8) -> Option<Letter>
    ensures { result ≡ letter_of byte }
{
    match byte {
        b'A' => Some(Letter::Add),
        b'D' => Some(Letter::Deliver),
        b'F' => Some(Letter::Floor),
        b'K' => Some(Letter::Rekey),
        b'R' => Some(Letter::Remove),
        b'S' => Some(Letter::Sent),
        b'T' => Some(Letter::Timed),
        _ => None,
    }
}

// The place in a stream, and at most one byte that was read ahead.
#[derive(Drop)]
pub(crate) struct Reader {
    pub(crate) place: u64,
    pub(crate) ahead: Option<u8>,
}

// Fills the buffer, or answers false if the source ends before it is full.
fn fill<I: Source>(input: &mut I, buf: &mut [u8]) -> Result<bool, Failed>
    ensures full { (bs : List ℕ) → I.left input.old ≡ Some bs → IfOk result (λ full. MatchBool full
        ((rest : List ℕ) × (bs ≡ buf.new ++ rest) × (I.left input.new ≡ Some rest))
        ((length bs < length buf.new) × (I.left input.new ≡ Some []))) }
    ensures cut { (bs : List ℕ) → I.left input.old ≡ Some bs → IfErr result (λ _. IsCut (length buf.new) bs (I.left input.new)) }
    ensures cause { HasCause (I.faults input.old) (I.faults input.new) result }
{
    let mut filled: usize = 0;
    while filled < buf.len() {
        let count = input.read(&mut buf[filled..])?;
        if count == 0 {
            return Ok(false);
        }
        filled += count;
    }
    Ok(true)
}

impl Reader {
    // The next byte, or None at the end.
    fn byte<I: Source>(&mut self, input: &mut I) -> Result<Option<u8>, Failed>
        ensures read { (bs : List ℕ) → Stands self.old.place self.old.ahead (I.left input.old) bs → IfOk result (λ b.
            Steps self.old.place self.new.place self.new.ahead (I.left input.new) bs b) }
        ensures stops { (bs : List ℕ) → Stands self.old.place self.old.ahead (I.left input.old) bs → OnErr result (I.left input.new ≡ Some bs) }
        ensures ahead { IfOk result (λ _. self.new.ahead ≡ None) }
        ensures cause { HasCause (I.faults input.old) (I.faults input.new) result }
    {
        if let Some(b) = self.ahead {
            self.ahead = None;
            self.place = self.place.saturating_add(1);
            return Ok(Some(b));
        }
        let mut one = [0u8; 1];
        if fill(input, &mut one)? {
            self.place = self.place.saturating_add(1);
            Ok(Some(one[0]))
        } else {
            Ok(None)
        }
    }

    // The length of the netstring that begins at `start`, up to its colon.
    fn length<I: Source>(
        &mut self,
        input: &mut I,
        start: u64,
        limit: u64,
    ) -> Result<u64, StreamError>
        requires { limit < 10 ^ 18 }
        ensures read { (bs : List ℕ) → Stands self.old.place self.old.ahead (I.left input.old) bs →
            Reads result self.new.place self.new.ahead (I.left input.new) (length_at start limit 0 0 self.old.place bs) }
        ensures stops { (bs : List ℕ) → Stands self.old.place self.old.ahead (I.left input.old) bs →
            IfErr result (λ e. EndsEarly e (I.left input.new) bs (λ t. Fails (length_at start limit 0 0 self.old.place t))) }
        ensures ahead { OnOk result (self.new.ahead ≡ None) }
        ensures limit { IfOk result (λ n. n ≤ limit) }
        ensures later { I.faults input.old ≤ I.faults input.new }
        ensures cause { IsErrOf result StreamError.Fault → Rose (I.faults input.old) (I.faults input.new) }
    {
        let mut n: u64 = 0;
        let mut count: usize = 0;
        loop {
            let Some(b) = self.byte(input)? else {
                return Err(StreamError::Short { at: start });
            };
            if b == b':' {
                if count == 0 {
                    return Err(StreamError::Bad { at: start });
                }
                return Ok(n);
            }
            if !is_next_digit(limit, count, n, b) {
                return Err(StreamError::Bad { at: start });
            }
            n = 10 * n + (b - b'0') as u64;
            count += 1;
        }
    }

    // The content of the netstring that begins here, without the comma after it. Its memory is taken at once, as large as
    // its length says, and the source fills it in pieces of any size.
    fn content<I: Source>(
        &mut self,
        alloc: Global,
        input: &mut I,
        limit: u64,
    ) -> Result<Bytes, StreamError>
        requires { limit < 10 ^ 18 }
        ensures read { (bs : List ℕ) → Stands self.old.place self.old.ahead (I.left input.old) bs →
            Reads result self.new.place self.new.ahead (I.left input.new) (content_at self.old.place limit bs) }
        ensures stops { (bs : List ℕ) → Stands self.old.place self.old.ahead (I.left input.old) bs →
            IfErr result (λ e. EndsEarly e (I.left input.new) bs (λ t. IsUnfinished (content_at self.old.place limit t))) }
        ensures ahead { OnOk result (self.new.ahead ≡ None) }
        ensures limit { IfOk result (λ text. length text ≤ limit) }
        ensures later { I.faults input.old ≤ I.faults input.new }
        ensures cause { IsErrOf result StreamError.Fault → Rose (I.faults input.old) (I.faults input.new) }
    {
        let start = self.place;
        let len = self.length(input, start, limit)?;
        let mut bytes = vec![in alloc; 0u8; len as usize]?;
        if !fill(input, &mut bytes)? {
            return Err(StreamError::Short { at: start });
        }
        self.place = self.place.saturating_add(len);
        Ok(Bytes::from_vec(bytes))
    }

    // The comma after a content.
    fn comma<I: Source>(&mut self, input: &mut I, start: u64) -> Result<(), StreamError>
        ensures read { (bs : List ℕ) → Stands self.old.place self.old.ahead (I.left input.old) bs →
            Reads result self.new.place self.new.ahead (I.left input.new) (comma_at start self.old.place bs) }
        ensures stops { (bs : List ℕ) → Stands self.old.place self.old.ahead (I.left input.old) bs →
            IfErr result (λ e. EndsEarly e (I.left input.new) bs (λ t. Fails (comma_at start self.old.place t))) }
        ensures ahead { OnOk result (self.new.ahead ≡ None) }
        ensures later { I.faults input.old ≤ I.faults input.new }
        ensures cause { IsErrOf result StreamError.Fault → Rose (I.faults input.old) (I.faults input.new) }
    {
        let Some(b) = self.byte(input)? else {
            return Err(StreamError::Short { at: start });
        };
        if b == b',' {
            Ok(())
        } else {
            Err(StreamError::Bad { at: start })
        }
    }

    // An element that holds the number of an item.
    fn number<I: Source>(&mut self, alloc: Global, input: &mut I) -> Result<u64, StreamError>
        ensures read { (bs : List ℕ) → Stands self.old.place self.old.ahead (I.left input.old) bs →
            Reads result self.new.place self.new.ahead (I.left input.new) (element_at 12 item_number_of self.old.place bs) }
        ensures stops { (bs : List ℕ) → Stands self.old.place self.old.ahead (I.left input.old) bs →
            IfErr result (λ e. EndsEarly e (I.left input.new) bs (λ t. Fails (element_at 12 item_number_of self.old.place t))) }
        ensures ahead { OnOk result (self.new.ahead ≡ None) }
        ensures limit { IfOk result (λ number. number ≤ 999_999_999_999) }
        ensures later { I.faults input.old ≤ I.faults input.new }
        ensures cause { IsErrOf result StreamError.Fault → Rose (I.faults input.old) (I.faults input.new) }
    {
        let start = self.place;
        let text = self.content(alloc, input, 12)?;
        let Some(value) = number_within(LAST_ITEM, text.as_slice()) else {
            return Err(StreamError::Bad { at: start });
        };
        self.comma(input, start)?;
        Ok(value)
    }

    // An element that holds a moment.
    fn moment<I: Source>(&mut self, alloc: Global, input: &mut I) -> Result<u64, StreamError>
        ensures read { (bs : List ℕ) → Stands self.old.place self.old.ahead (I.left input.old) bs →
            Reads result self.new.place self.new.ahead (I.left input.new) (element_at 12 moment_in self.old.place bs) }
        ensures stops { (bs : List ℕ) → Stands self.old.place self.old.ahead (I.left input.old) bs →
            IfErr result (λ e. EndsEarly e (I.left input.new) bs (λ t. Fails (element_at 12 moment_in self.old.place t))) }
        ensures ahead { OnOk result (self.new.ahead ≡ None) }
        ensures limit { IfOk result (λ moment. moment < 253_402_300_800) }
        ensures later { I.faults input.old ≤ I.faults input.new }
        ensures cause { IsErrOf result StreamError.Fault → Rose (I.faults input.old) (I.faults input.new) }
    {
        let start = self.place;
        let text = self.content(alloc, input, 12)?;
        let Some(value) = number_within(LAST_MOMENT, text.as_slice()) else {
            return Err(StreamError::Bad { at: start });
        };
        self.comma(input, start)?;
        Ok(value)
    }

    // An element that holds the word of a set.
    fn set<I: Source>(&mut self, alloc: Global, input: &mut I) -> Result<Set, StreamError>
        ensures read { (bs : List ℕ) → Stands self.old.place self.old.ahead (I.left input.old) bs →
            Reads result self.new.place self.new.ahead (I.left input.new) (element_at 6 set_of self.old.place bs) }
        ensures stops { (bs : List ℕ) → Stands self.old.place self.old.ahead (I.left input.old) bs →
            IfErr result (λ e. EndsEarly e (I.left input.new) bs (λ t. Fails (element_at 6 set_of self.old.place t))) }
        ensures ahead { OnOk result (self.new.ahead ≡ None) }
        ensures later { I.faults input.old ≤ I.faults input.new }
        ensures cause { IsErrOf result StreamError.Fault → Rose (I.faults input.old) (I.faults input.new) }
    {
        let start = self.place;
        let text = self.content(alloc, input, 6)?;
        let Some(value) = Set::of_word(text.as_slice()) else {
            return Err(StreamError::Bad { at: start });
        };
        self.comma(input, start)?;
        Ok(value)
    }

    // An element that holds an address.
    fn address<I: Source>(&mut self, alloc: Global, input: &mut I) -> Result<Address, StreamError>
        ensures read { (bs : List ℕ) → Stands self.old.place self.old.ahead (I.left input.old) bs →
            Reads result self.new.place self.new.ahead (I.left input.new) (element_at 400 address_of self.old.place bs) }
        ensures stops { (bs : List ℕ) → Stands self.old.place self.old.ahead (I.left input.old) bs →
            IfErr result (λ e. EndsEarly e (I.left input.new) bs (λ t. Fails (element_at 400 address_of self.old.place t))) }
        ensures ahead { OnOk result (self.new.ahead ≡ None) }
        ensures later { I.faults input.old ≤ I.faults input.new }
        ensures cause { IsErrOf result StreamError.Fault → Rose (I.faults input.old) (I.faults input.new) }
    {
        let start = self.place;
        let text = self.content(alloc, input, 400)?;
        let Some(value) = Address::read(alloc, text.as_slice())? else {
            return Err(StreamError::Bad { at: start });
        };
        self.comma(input, start)?;
        Ok(value)
    }

    // A set and an address that joins it.
    fn add<I: Source>(&mut self, alloc: Global, input: &mut I) -> Result<Act, StreamError>
        ensures read { (bs : List ℕ) → Stands self.old.place self.old.ahead (I.left input.old) bs →
            Reads result self.new.place self.new.ahead (I.left input.new) (add_at self.old.place bs) }
        ensures stops { (bs : List ℕ) → Stands self.old.place self.old.ahead (I.left input.old) bs →
            IfErr result (λ e. EndsEarly e (I.left input.new) bs (λ t. Fails (add_at self.old.place t))) }
        ensures ahead { OnOk result (self.new.ahead ≡ None) }
        ensures limit { IfOk result IsAct }
        ensures later { I.faults input.old ≤ I.faults input.new }
        ensures cause { IsErrOf result StreamError.Fault → Rose (I.faults input.old) (I.faults input.new) }
    {
        let set = self.set(alloc, input)?;
        let who = self.address(alloc, input)?;
        Ok(Act::Add { set, who })
    }

    // A set and an address that leaves it.
    fn remove<I: Source>(&mut self, alloc: Global, input: &mut I) -> Result<Act, StreamError>
        ensures read { (bs : List ℕ) → Stands self.old.place self.old.ahead (I.left input.old) bs →
            Reads result self.new.place self.new.ahead (I.left input.new) (remove_at self.old.place bs) }
        ensures stops { (bs : List ℕ) → Stands self.old.place self.old.ahead (I.left input.old) bs →
            IfErr result (λ e. EndsEarly e (I.left input.new) bs (λ t. Fails (remove_at self.old.place t))) }
        ensures ahead { OnOk result (self.new.ahead ≡ None) }
        ensures limit { IfOk result IsAct }
        ensures later { I.faults input.old ≤ I.faults input.new }
        ensures cause { IsErrOf result StreamError.Fault → Rose (I.faults input.old) (I.faults input.new) }
    {
        let set = self.set(alloc, input)?;
        let who = self.address(alloc, input)?;
        Ok(Act::Remove { set, who })
    }

    // An element that holds a number from 1 up to `most`, of at most `digits` digits.
    fn positive<I: Source>(
        &mut self,
        alloc: Global,
        input: &mut I,
        digits: u64,
        most: u64,
    ) -> Result<u64, StreamError>
        requires digits { digits < 10 ^ 18 }
        requires most { most < 10 ^ 18 }
        ensures read { (bs : List ℕ) → Stands self.old.place self.old.ahead (I.left input.old) bs →
            Reads result self.new.place self.new.ahead (I.left input.new) (element_at digits (positive_within most) self.old.place bs) }
        ensures stops { (bs : List ℕ) → Stands self.old.place self.old.ahead (I.left input.old) bs →
            IfErr result (λ e. EndsEarly e (I.left input.new) bs (λ t. Fails (element_at digits (positive_within most) self.old.place t))) }
        ensures ahead { OnOk result (self.new.ahead ≡ None) }
        ensures limit { IfOk result (λ n. (1 ≤ n) × (n ≤ most)) }
        ensures later { I.faults input.old ≤ I.faults input.new }
        ensures cause { IsErrOf result StreamError.Fault → Rose (I.faults input.old) (I.faults input.new) }
    {
        let start = self.place;
        let text = self.content(alloc, input, digits)?;
        let Some(value) = read_positive(most, text.as_slice()) else {
            return Err(StreamError::Bad { at: start });
        };
        self.comma(input, start)?;
        Ok(value)
    }

    // An element that holds any bytes, at most `limit` of them.
    fn text<I: Source>(
        &mut self,
        alloc: Global,
        input: &mut I,
        limit: u64,
    ) -> Result<Bytes, StreamError>
        requires { limit < 10 ^ 18 }
        ensures read { (bs : List ℕ) → Stands self.old.place self.old.ahead (I.left input.old) bs →
            Reads result self.new.place self.new.ahead (I.left input.new) (element_at limit any_bytes self.old.place bs) }
        ensures stops { (bs : List ℕ) → Stands self.old.place self.old.ahead (I.left input.old) bs →
            IfErr result (λ e. EndsEarly e (I.left input.new) bs (λ t. Fails (element_at limit any_bytes self.old.place t))) }
        ensures ahead { OnOk result (self.new.ahead ≡ None) }
        ensures limit { IfOk result (λ text. length text ≤ limit) }
        ensures later { I.faults input.old ≤ I.faults input.new }
        ensures cause { IsErrOf result StreamError.Fault → Rose (I.faults input.old) (I.faults input.new) }
    {
        let start = self.place;
        let text = self.content(alloc, input, limit)?;
        self.comma(input, start)?;
        Ok(text)
    }

    // A message with its envelope: the sender, the recipient, and then the message.
    fn deliver<I: Source>(&mut self, alloc: Global, input: &mut I) -> Result<Act, StreamError>
        ensures read { (bs : List ℕ) → Stands self.old.place self.old.ahead (I.left input.old) bs →
            Reads result self.new.place self.new.ahead (I.left input.new) (deliver_at self.old.place bs) }
        ensures stops { (bs : List ℕ) → Stands self.old.place self.old.ahead (I.left input.old) bs →
            IfErr result (λ e. EndsEarly e (I.left input.new) bs (λ t. Fails (deliver_at self.old.place t))) }
        ensures ahead { OnOk result (self.new.ahead ≡ None) }
        ensures limit { IfOk result IsAct }
        ensures later { I.faults input.old ≤ I.faults input.new }
        ensures cause { IsErrOf result StreamError.Fault → Rose (I.faults input.old) (I.faults input.new) }
    {
        let sender = self.text(alloc, input, LONGEST_PATH as u64)?;
        let recipient = self.text(alloc, input, LONGEST_PATH as u64)?;
        let message = self.text(alloc, input, LONGEST_MESSAGE as u64)?;
        Ok(Act::Deliver {
            sender,
            recipient,
            message,
        })
    }

    // The id of an entry of the queue.
    fn sent_act<I: Source>(&mut self, alloc: Global, input: &mut I) -> Result<Act, StreamError>
        ensures read { (bs : List ℕ) → Stands self.old.place self.old.ahead (I.left input.old) bs →
            Reads result self.new.place self.new.ahead (I.left input.new) (sent_at self.old.place bs) }
        ensures stops { (bs : List ℕ) → Stands self.old.place self.old.ahead (I.left input.old) bs →
            IfErr result (λ e. EndsEarly e (I.left input.new) bs (λ t. Fails (sent_at self.old.place t))) }
        ensures ahead { OnOk result (self.new.ahead ≡ None) }
        ensures limit { IfOk result IsAct }
        ensures later { I.faults input.old ≤ I.faults input.new }
        ensures cause { IsErrOf result StreamError.Fault → Rose (I.faults input.old) (I.faults input.new) }
    {
        let id = self.positive(alloc, input, 16, LAST_DRAWN)?;
        Ok(Act::Sent { id })
    }

    // A floor.
    fn floor<I: Source>(&mut self, alloc: Global, input: &mut I) -> Result<Act, StreamError>
        ensures read { (bs : List ℕ) → Stands self.old.place self.old.ahead (I.left input.old) bs →
            Reads result self.new.place self.new.ahead (I.left input.new) (floor_at self.old.place bs) }
        ensures stops { (bs : List ℕ) → Stands self.old.place self.old.ahead (I.left input.old) bs →
            IfErr result (λ e. EndsEarly e (I.left input.new) bs (λ t. Fails (floor_at self.old.place t))) }
        ensures ahead { OnOk result (self.new.ahead ≡ None) }
        ensures limit { IfOk result IsAct }
        ensures later { I.faults input.old ≤ I.faults input.new }
        ensures cause { IsErrOf result StreamError.Fault → Rose (I.faults input.old) (I.faults input.new) }
    {
        let at = self.positive(alloc, input, 12, LAST_ITEM)?;
        Ok(Act::Floor { at })
    }

    // An element that holds a key.
    fn key<I: Source>(&mut self, alloc: Global, input: &mut I) -> Result<[u8; 32], StreamError>
        ensures read { (bs : List ℕ) → Stands self.old.place self.old.ahead (I.left input.old) bs →
            Reads result self.new.place self.new.ahead (I.left input.new) (element_at 64 key_of self.old.place bs) }
        ensures stops { (bs : List ℕ) → Stands self.old.place self.old.ahead (I.left input.old) bs →
            IfErr result (λ e. EndsEarly e (I.left input.new) bs (λ t. Fails (element_at 64 key_of self.old.place t))) }
        ensures ahead { OnOk result (self.new.ahead ≡ None) }
        ensures later { I.faults input.old ≤ I.faults input.new }
        ensures cause { IsErrOf result StreamError.Fault → Rose (I.faults input.old) (I.faults input.new) }
    {
        let start = self.place;
        let text = self.content(alloc, input, 64)?;
        let Some(value) = read_key(text.as_slice()) else {
            return Err(StreamError::Bad { at: start });
        };
        self.comma(input, start)?;
        Ok(value)
    }

    // A key.
    fn rekey<I: Source>(&mut self, alloc: Global, input: &mut I) -> Result<Act, StreamError>
        ensures read { (bs : List ℕ) → Stands self.old.place self.old.ahead (I.left input.old) bs →
            Reads result self.new.place self.new.ahead (I.left input.new) (rekey_at self.old.place bs) }
        ensures stops { (bs : List ℕ) → Stands self.old.place self.old.ahead (I.left input.old) bs →
            IfErr result (λ e. EndsEarly e (I.left input.new) bs (λ t. Fails (rekey_at self.old.place t))) }
        ensures ahead { OnOk result (self.new.ahead ≡ None) }
        ensures limit { IfOk result IsAct }
        ensures later { I.faults input.old ≤ I.faults input.new }
        ensures cause { IsErrOf result StreamError.Fault → Rose (I.faults input.old) (I.faults input.new) }
    {
        let key = self.key(alloc, input)?;
        Ok(Act::Rekey { key })
    }

    // The elements of an act, after number and moment.
    fn act<I: Source>(
        &mut self,
        alloc: Global,
        input: &mut I,
        letter: Letter,
    ) -> Result<Act, StreamError>
        ensures read { (bs : List ℕ) → Stands self.old.place self.old.ahead (I.left input.old) bs →
            Reads result self.new.place self.new.ahead (I.left input.new) (act_at letter self.old.place bs) }
        ensures stops { (bs : List ℕ) → Stands self.old.place self.old.ahead (I.left input.old) bs →
            IfErr result (λ e. EndsEarly e (I.left input.new) bs (λ t. Fails (act_at letter self.old.place t))) }
        ensures ahead { self.old.ahead ≡ None → OnOk result (self.new.ahead ≡ None) }
        ensures limit { IfOk result IsAct }
        ensures later { I.faults input.old ≤ I.faults input.new }
        ensures cause { IsErrOf result StreamError.Fault → Rose (I.faults input.old) (I.faults input.new) }
    {
        match letter {
            Letter::Add => self.add(alloc, input),
            Letter::Deliver => self.deliver(alloc, input),
            Letter::Floor => self.floor(alloc, input),
            Letter::Rekey => self.rekey(alloc, input),
            Letter::Remove => self.remove(alloc, input),
            Letter::Sent => self.sent_act(alloc, input),
            Letter::Timed => Ok(Act::Timed),
        }
    }

    // The elements of an item after its letter.
    #[tactic(auto, unfolding(crate::specs::Stream::elements_at))]
    fn elements<I: Source>(
        &mut self,
        alloc: Global,
        input: &mut I,
        letter: Letter,
    ) -> Result<Item, StreamError>
        ensures read { (bs : List ℕ) → Stands self.old.place self.old.ahead (I.left input.old) bs →
            Reads result self.new.place self.new.ahead (I.left input.new) (elements_at letter self.old.place bs) }
        ensures stops { (bs : List ℕ) → Stands self.old.place self.old.ahead (I.left input.old) bs →
            IfErr result (λ e. EndsEarly e (I.left input.new) bs (λ t. Fails (elements_at letter self.old.place t))) }
        ensures ahead { OnOk result (self.new.ahead ≡ None) }
        ensures limits { IfOk result IsItem }
        ensures later { I.faults input.old ≤ I.faults input.new }
        ensures cause { IsErrOf result StreamError.Fault → Rose (I.faults input.old) (I.faults input.new) }
    {
        let number = self.number(alloc, input)?;
        let moment = self.moment(alloc, input)?;
        let act = self.act(alloc, input, letter)?;
        Ok(Item {
            number,
            moment,
            act,
        })
    }

    // The next item, or None at the end of the stream.
    pub(crate) fn item<I: Source>(
        &mut self,
        alloc: Global,
        input: &mut I,
    ) -> Result<Option<Item>, StreamError>
        ensures read { (bs : List ℕ) → Stands self.old.place self.old.ahead (I.left input.old) bs →
            Reads result self.new.place self.new.ahead (I.left input.new) (item_at self.old.place bs) }
        ensures stops { (bs : List ℕ) → Stands self.old.place self.old.ahead (I.left input.old) bs →
            IfErr result (λ e. EndsEarly e (I.left input.new) bs (IsNoItem self.old.place)) }
        ensures ahead { OnOk result (self.new.ahead ≡ None) }
        ensures limits { IfOk result (λ found. IfSome found IsItem) }
        ensures later { I.faults input.old ≤ I.faults input.new }
        ensures cause { IsErrOf result StreamError.Fault → Rose (I.faults input.old) (I.faults input.new) }
    {
        let start = self.place;
        let Some(b) = self.byte(input)? else {
            return Ok(None);
        };
        let Some(letter) = read_letter(b) else {
            return Err(StreamError::Bad { at: start });
        };
        Ok(Some(self.elements(alloc, input, letter)?))
    }
}

// The key that a text spells, or None if it spells none.
fn read_key(text: &[u8]) -> Option<[u8; 32]>
    ensures { result ≡ key_of text.now }
{
    let mut key = [0u8; 32];
    if decode_to_slice(text, &mut key).is_err() {
        return None;
    }
    let mut digits = [0u8; 64];
    if encode_to_slice(key.as_slice(), &mut digits).is_err() {
        return None;
    }
    if digits.as_slice() == text {
        Some(key)
    } else {
        None
    }
}

// The number from 1 up to `most` that a text spells, or None if it spells none.
fn read_positive(most: u64, text: &[u8]) -> Option<u64>
    requires { most < 10 ^ 18 }
    ensures value { result ≡ positive_within most text.now }
    ensures limit { IfSome result (λ n. (1 ≤ n) × (n ≤ most)) }
{
    let Some(n) = number_within(most, text) else {
        return None;
    };
    if n == 0 { None } else { Some(n) }
}
