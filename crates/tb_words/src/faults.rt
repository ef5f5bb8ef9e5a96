//! Lists the first faults of a file as CSV.

ghost use Rattle.std.specs.Prelude.{◌≡◌, ◌<◌, IfErr, IfOk, length, take};
ghost use Rattle.tb_words.specs.FirstFaults.{AreFirstFaults, IsFaultList, are_more, exit_with};
ghost use Rattle.tb_words.specs.Told.{IsToldList};

use crate::telling::tell_faults;
use std::alloc::{AllocError, Global};
use tb_check::{Fault, faults_of};
use tb_report::faults_text;

/// The first faults of a file.
#[derive(Drop)]
struct FirstFaults {
    faults: Vec<Fault>,
    /// Whether the file has more.
    more: bool,
    /// The exit status.
    status: u8,
}

/// The list of a file's first faults, and the exit status.
#[derive(Drop)]
pub struct FaultList {
    pub text: Vec<u8>,
    pub status: u8,
}

/// The exit status after these faults.
fn exit_with(faults: &[Fault]) -> u8
    ensures { result ≡ exit_with faults.now }
{
    if faults.is_empty() { 0 } else { 1 }
}

/// Whether these are more faults than so many.
fn are_more(faults: &[Fault], most: usize) -> bool
    ensures { result ≡ are_more most faults.now }
{
    faults.len() > most
}

/// The first faults of these, at most so many.
fn cut(mut faults: Vec<Fault>, most: usize) -> Vec<Fault>
    ensures { result.items ≡ take most faults.items }
{
    faults.truncate(most);
    faults
}

/// The first faults of a file, at most so many.
fn first_faults(alloc: Global, file: &[u8], most: u32) -> Result<FirstFaults, AllocError>
    ensures first { IfOk result (λ first. AreFirstFaults file.now most first) }
    ensures memory { IfErr result (λ _. 0 < length file.now) }
{
    let most = most as usize;
    let faults = faults_of(alloc, file, most + 1)?;
    let more = are_more(faults.as_slice(), most);
    let status = exit_with(faults.as_slice());
    Ok(FirstFaults {
        faults: cut(faults, most),
        more,
        status,
    })
}

/// Lists the first faults of a file, at most so many, and tells each.
fn told_list(alloc: Global, file: &[u8], most: u32) -> Result<FaultList, AllocError>
    ensures list { IfOk result (λ list. IsFaultList file.now most list.text.items list.status) }
    ensures told { IfOk result (λ list. IsToldList file.now most list.text.items) }
{
    let first = first_faults(alloc, file, most)?;
    let told = tell_faults(alloc, file, first.faults.as_slice())?;
    let text = faults_text(alloc, told.as_slice(), first.more)?;
    Ok(FaultList {
        text,
        status: first.status,
    })
}

/// Lists the first faults of a file, at most so many.
///
/// # Errors
///
/// No memory is left.
pub fn list_faults(alloc: Global, file: &[u8], most: u32) -> Result<FaultList, AllocError>
    ensures { IfOk result (λ list. IsFaultList file.now most list.text.items list.status) }
{
    told_list(alloc, file, most)
}
