// The pages that words name.
ghost use Rattle.std.specs.Prelude.{◌≡◌};
ghost use Rattle.ml_pages_questions.specs.Words as spec;

use crate::PageQuery;
use ml_base::read_number;

/// The page of a month that two words name: `YYYY-MM`, of four digits, a hyphen and `01` to `12`, and the page's number, from 1 on. None if one
/// of them is no such word.
pub fn month_query(month: &[u8], page: &[u8]) -> Option<PageQuery>
    ensures { result ≡ spec.month_query month.now page.now }
{
    let (year, month) = read_month(month)?;
    let page = read_page(page)?;
    Some(PageQuery::Month { year, month, page })
}

/// The page of a thread that two words name: the number of its first post, whatever the number, and the page's number, from 1 on. None if one of
/// them is no such word.
pub fn thread_query(first: &[u8], page: &[u8]) -> Option<PageQuery>
    ensures { result ≡ spec.thread_query first.now page.now }
{
    let first = read_number(first)?;
    let page = read_page(page)?;
    Some(PageQuery::Thread { first, page })
}

// The page number that a text spells.
fn read_page(text: &[u8]) -> Option<u64>
    ensures { result ≡ spec.page_in text.now }
{
    let page = read_number(text)?;
    if page == 0 { None } else { Some(page) }
}

// The year and the month that a text spells.
fn read_month(text: &[u8]) -> Option<(u16, u8)>
    ensures { result ≡ spec.month_in text.now }
{
    let [a, b, c, d, hyphen, e, f] = text else {
        return None;
    };
    let century = two_digits(*a, *b)?;
    let year = two_digits(*c, *d)?;
    let month = two_digits(*e, *f)?;
    if *hyphen == b'-' && 1 <= month && month <= 12 {
        Some((100 * century as u16 + year as u16, month))
    } else {
        None
    }
}

// The number that two digits spell.
fn two_digits(tens: u8, ones: u8) -> Option<u8>
    ensures { result ≡ spec.two_in tens ones }
{
    if tens.is_ascii_digit() && ones.is_ascii_digit() {
        Some(10 * (tens - b'0') + (ones - b'0'))
    } else {
        None
    }
}
