//! Reads a whole input, up to a limit.

ghost use Rattle.std.specs.Prelude.{◌<◌, ◌^◌};
ghost use Rattle.tb_check.specs.Input.{IsAskedFor, IsInput};

use std::alloc::Global;
use tb_conllu::Source;

/// The outcome of reading an input.
#[derive(Drop)]
pub enum Input {
    /// All its bytes.
    Whole(Vec<u8>),
    /// It has more bytes than the limit.
    TooLong,
    /// Memory was refused.
    Memory,
    /// The source failed.
    Broken,
}

/// Reads all bytes, or one byte more than the limit. After the end, and after a read that failed, it does not read again.
pub fn read_all<R: Source>(alloc: Global, source: &mut R, limit: u64) -> Input
    requires { limit < 2 ^ 32 }
    ensures came { IsInput (R.IsFailure source.new) limit (R.left source.old) (R.left source.new) result }
    ensures asked { IsAskedFor limit (R.pieces source.old) (R.pieces source.new) result }
{
    let mut all = Vec::new(alloc);
    let most = limit as usize + 1;
    let mut chunk = [0u8; 4096];
    'reads: while all.len() < most {
        let room = (most - all.len()).min(4096);
        let part = &mut chunk[..room];
        let Ok(count) = source.pull(part) else {
            return Input::Broken;
        };
        if count == 0 {
            return Input::Whole(all);
        }
        if all.extend_from_slice(&part[..count]).is_err() {
            return Input::Memory;
        }
    }
    Input::TooLong
}
