ghost use Rattle.std.specs.Prelude.{◌≡◌};
ghost use Rattle.tb_fields.specs.Blank.{is_blank};

/// Whether the field is `_`, which gives no value.
pub fn is_blank_field(text: &str) -> bool
    ensures { result ≡ is_blank text.now }
{
    text == "_"
}
