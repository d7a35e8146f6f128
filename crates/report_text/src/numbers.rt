ghost use Rattle.std.specs.Prelude.{◌≡◌, ◌++◌, ◌∷◌, [], ◌<◌, false, OnOk, string_bytes, decimal};
ghost use Rattle.std.specs.Fmt.{digits, digit_glyph};

use itoa::Buffer;
use std::alloc::AllocError;

/// Appends a number in decimal.
pub fn put_number(out: &mut String, number: u64) -> Result<(), AllocError>
    ensures { OnOk result (string_bytes out.new ≡ string_bytes out.old ++ decimal number) }
{
    let mut buffer = Buffer::new();
    out.push_str(buffer.format(number))
}

// Appends the digit of a number below 16.
fn put_hex_digit(out: &mut String, value: u64) -> Result<(), AllocError>
    requires { value < 16 }
    ensures { OnOk result (string_bytes out.new ≡ string_bytes out.old ++ digit_glyph false value ∷ []) }
{
    out.push(char::from_digit(value as u32, 16).unwrap())
}

/// Appends the hexadecimal digits of a number.
pub fn put_hex_digits(out: &mut String, number: u64) -> Result<(), AllocError>
    ensures { OnOk result (string_bytes out.new ≡ string_bytes out.old ++ digits 16 false number) }
{
    if number < 16 {
        return put_hex_digit(out, number);
    }
    put_hex_digits(out, number / 16)?;
    put_hex_digit(out, number % 16)
}
