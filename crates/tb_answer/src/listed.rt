//! Tables of what was read, as CSV.

ghost use Rattle.std.specs.Prelude.{◌≡◌, IfErr, IfOk};
ghost use Rattle.tb_answer.specs.Asked.{IsMadeOf};

use crate::bodies::or_memory;
use crate::commands::reply_for_fault;
use std::alloc::Global;
use tb_core::Fault;
use tb_http::Reply;
use tb_report::{Table, write_csv};

/// A table as CSV.
pub(crate) fn text_of<T: Table>(alloc: Global, table: &T) -> Result<Vec<u8>, Reply>
    ensures text { IfOk result (λ v. T.HasCsv table.now v.items) }
    ensures failed { IfErr result (λ r. r ≡ Reply.Memory) }
{
    let mut text = Vec::new(alloc);
    or_memory(write_csv(alloc, table, &mut text), text)
}

/// The CSV of what was read, or the reply for the fault of the read.
pub(crate) fn text_or_reply<T: Table + Drop>(
    alloc: Global,
    read: Result<T, Fault>,
) -> Result<Vec<u8>, Reply>
    ensures { IsMadeOf read result (λ table v. T.HasCsv table v.items) }
{
    match read {
        Ok(table) => text_of(alloc, &table),
        Err(fault) => Err(reply_for_fault(fault)),
    }
}
