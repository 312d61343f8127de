// Addresses: a local part, `@` and a host, in the profile of RFC 822's addr-spec that has no quoted parts,
// comments, routes or literals.
ghost use Rattle.std.specs.Prelude.{◌≡◌, ◌≤◌, ◌+◌, ◌++◌, Ok, Err, Some, None, IfOk, IfErr, IsTrue, OnOk, MatchResult, ◌↔◌, take, drop, length, nat_lt};
ghost use Rattle.std.specs.List.{list_all, list_any};
ghost use Rattle.std.specs.Char.{is_ascii_uppercase};
ghost use Rattle.ml_base.specs.Bytes.{lower};
ghost use Rattle.ml_base.specs.Address.{address_check, address_of, local_of, host_of, IsAddress, IsFaultOf, key};
ghost use Rattle.ml_base.specs.Address as spec;

use crate::{Bytes, split_last};
use std::alloc::{AllocError, Global};
use std::marker::Model;
use thiserror::Error;

const MAX_LEN: usize = 400;

/// Why a text is no address: the first of these that holds.
#[derive(Clone, Copy, Debug, PartialEq, Eq, Error)]
pub enum AddressFault {
    #[error("longer than 400 bytes")]
    TooLong,
    #[error("no `@`")]
    NoAt,
    #[error("nothing before or after the last `@`")]
    EmptyPart,
    #[error("a byte that no address has")]
    BadByte,
}

/// Why no address was made of a text.
#[derive(Clone, Copy, Debug, PartialEq, Eq, Error)]
pub enum AddressError {
    #[error("no address: {0}")]
    Fault(AddressFault),
    #[error("out of memory")]
    Memory,
}

impl From<AllocError> for AddressError {
    ghost use Rattle.ml_base.specs.declared.address.AddressError.TheVariants.{Memory};

    ghost from_gives = { λ _ e. e ≡ Memory };

    fn from(_: AllocError) -> Self {
        AddressError::Memory
    }
}

fn is_local_byte(byte: u8) -> bool
    ensures { result ≡ spec.is_local_byte byte }
{
    33 <= byte && byte <= 126 && byte != b'@'
}

/// Whether a byte is one that a host has: a letter, a digit, `-`, `_` or `.`.
pub fn is_host_byte(byte: u8) -> bool
    ensures { result ≡ spec.is_host_byte byte }
{
    byte.is_ascii_alphabetic()
        || byte.is_ascii_digit()
        || byte == b'-'
        || byte == b'_'
        || byte == b'.'
}

fn all_local(text: &[u8]) -> bool
    ensures { result ≡ list_all spec.is_local_byte text.now }
{
    text.iter().all(|byte| is_local_byte(*byte))
}

fn all_host(text: &[u8]) -> bool
    ensures { result ≡ list_all spec.is_host_byte text.now }
{
    text.iter().all(|byte| is_host_byte(*byte))
}

// The faults of the parts before and after the `@`.
fn check_parts(local: &[u8], host: &[u8]) -> Result<(), AddressFault>
    ensures { result ≡ spec.check_parts (Some (local.now, host.now)) }
{
    if local.is_empty() || host.is_empty() {
        return Err(AddressFault::EmptyPart);
    }
    if all_local(local) && all_host(host) {
        Ok(())
    } else {
        Err(AddressFault::BadByte)
    }
}

/// Whether two parts make an address with an `@` between them. It takes no memory.
#[tactic(auto, using(crate::proofs::AddressParts::who_parts))]
pub fn make_address(local: &[u8], host: &[u8]) -> bool
    ensures { result ≡ spec.make_address local.now host.now }
{
    are_parts(local, host)
}

fn are_parts(local: &[u8], host: &[u8]) -> bool
    ensures { result ≡ spec.are_parts local.now host.now }
{
    are_short(local, host)
        && !(local.is_empty() || host.is_empty())
        && all_local(local)
        && all_host(host)
}

// Whether two parts and an `@` are short enough for an address.
fn are_short(local: &[u8], host: &[u8]) -> bool
    ensures { result ≡ nat_lt (length local.now + length host.now) 400 }
{
    local.len() < MAX_LEN && host.len() < MAX_LEN - local.len()
}

/// Whether a text is an address, spelled as it is kept: with its host in lower case. It takes no memory.
pub fn is_canonical(text: &[u8]) -> bool
    ensures { IsTrue result ↔ IsAddress text.now }
{
    if Address::check(text).is_err() {
        return false;
    }
    match split_last(b'@', text) {
        None => false,
        Some((_, host)) => !has_capital(host),
    }
}

// Whether a text has a capital letter.
fn has_capital(text: &[u8]) -> bool
    ensures { result ≡ list_any is_ascii_uppercase text.now }
{
    text.iter().any(|byte| byte.is_ascii_uppercase())
}

/// A checked address, spelled as it is kept: with its host in lower case.
#[derive(Drop)]
pub struct Address {
    text: Bytes,
    at: usize,
}

impl Model for Address {
    ghost use Rattle.std.specs.Prelude.{List, ℕ};
    ghost use Rattle.ml_base.specs.Address.{IsAddressAt};

    ghost Value = { List ℕ };

    ghost view = { λ a. a.text };

    ghost invariant = { λ a. IsAddressAt a.text a.at };
}

impl Address {
    /// Whether a text is an address, and if not, why. It takes no memory.
    pub fn check(text: &[u8]) -> Result<(), AddressFault>
        ensures { result ≡ address_check text.now }
    {
        if text.len() > MAX_LEN {
            return Err(AddressFault::TooLong);
        }
        match split_last(b'@', text) {
            None => Err(AddressFault::NoAt),
            Some((local, host)) => check_parts(local, host),
        }
    }

    /// The address that a text spells, its host in lower case. Its faults are those of `check`.
    pub fn parse(alloc: Global, text: &[u8]) -> Result<Address, AddressError>
        ensures ok { IfOk result (λ address. address_of text.now ≡ Some address) }
        ensures fault { IfErr result (λ e. IsFaultOf e text.now) }
    {
        if let Err(fault) = Address::check(text) {
            return Err(AddressError::Fault(fault));
        }
        let Some((local, host)) = split_last(b'@', text) else {
            return Err(AddressError::Fault(AddressFault::NoAt));
        };
        let mut kept = Bytes::from_slice(alloc, &text[..local.len() + 1])?;
        add_lower(&mut kept, host)?;
        Ok(Address {
            text: kept,
            at: local.len(),
        })
    }

    /// The address that a text spells, its host in lower case, or None if it spells none.
    pub fn read(alloc: Global, text: &[u8]) -> Result<Option<Address>, AllocError>
        ensures { IfOk result (λ found. found ≡ address_of text.now) }
    {
        match Address::parse(alloc, text) {
            Ok(address) => Ok(Some(address)),
            Err(AddressError::Fault(_)) => Ok(None),
            Err(AddressError::Memory) => Err(AllocError),
        }
    }

    /// The address that a text is. The text is spelled canonically, as `is_canonical` finds; it isn't checked again.
    pub fn from_canonical(alloc: Global, text: &[u8]) -> Result<Address, AllocError>
        requires { IsAddress text.now }
        ensures { IfOk result (λ address. address ≡ text.now) }
    {
        let Some((local, _)) = split_last(b'@', text) else {
            unreachable!()
        };
        Ok(Address {
            text: Bytes::from_slice(alloc, text)?,
            at: local.len(),
        })
    }

    /// The whole address, as it is kept.
    pub fn bytes(&self) -> &[u8]
        ensures value { result.now ≡ self.now }
        ensures address { IsAddress self.now }
    {
        let _at = &self.at;
        self.text.as_slice()
    }

    /// The part before the last `@`.
    pub fn local(&self) -> &[u8]
        ensures { result.now ≡ local_of self.now }
    {
        &self.text.as_slice()[..self.at]
    }

    /// The part after the last `@`, in lower case.
    pub fn host(&self) -> &[u8]
        ensures { result.now ≡ host_of self.now }
    {
        &self.text.as_slice()[self.at + 1..]
    }

    /// Whether two addresses are one subscriber: they are the same if the case of ASCII letters is ignored.
    pub fn same(&self, other: &Address) -> bool
        ensures { IsTrue result ↔ (key self.now ≡ key other.now) }
    {
        self.text
            .as_slice()
            .eq_ignore_ascii_case(other.text.as_slice())
    }

    /// An equal address.
    pub fn copy(&self, alloc: Global) -> Result<Address, AllocError>
        ensures { IfOk result (λ address. address ≡ self.now) }
    {
        Ok(Address {
            text: Bytes::from_slice(alloc, self.text.as_slice())?,
            at: self.at,
        })
    }
}

// Adds a text in lower case at the end.
fn add_lower(out: &mut Bytes, text: &[u8]) -> Result<(), AllocError>
    ensures { OnOk result (out.new ≡ out.old ++ lower text.now) }
{
    for byte in text {
        out.push(byte.to_ascii_lowercase())?;
    }
    Ok(())
}
