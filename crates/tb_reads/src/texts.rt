//! Texts in columns.

ghost use Rattle.std.specs.Prelude.{◌≡◌, string_bytes, IsUtf8};
ghost use Rattle.tb_reads.specs.Prelude.{Text};

use simdutf8::basic::from_utf8;
use sqlite::types::{FromSql, FromSqlError, ValueRef};
use std::alloc::Global;

/// The text of a column. Its UTF-8 is tested 64 bytes at a time.
#[derive(Drop)]
pub(crate) struct ColumnText {
    pub text: String,
}

impl FromSql for ColumnText {
    ghost use Rattle.std.specs.Prelude.{◌≡◌, string_bytes, IsUtf8};
    ghost use Rattle.tb_reads.specs.Prelude.{Text};
    ghost use Rattle.sqlite.specs.Values.{text_refusal};

    ghost reads_as = { λ v s. v ≡ Text (string_bytes s.text) };

    ghost is_readable = { λ v. (t : _) × (v ≡ Text t) × IsUtf8 t };

    ghost refusal = { text_refusal };

    fn column_result(alloc: Global, value: ValueRef<'_>) -> Result<ColumnText, FromSqlError> {
        match value {
            ValueRef::Text(bytes) => match from_utf8(bytes) {
                Ok(text) => Ok(ColumnText {
                    text: String::from_str(alloc, text)?,
                }),
                Err(_) => Err(FromSqlError::Utf8),
            },
            _ => Err(FromSqlError::InvalidType),
        }
    }
}
