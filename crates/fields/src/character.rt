ghost use Rattle.std.specs.Prelude.{◌≡◌};
ghost use Rattle.fields.specs.Characters.{is_faster_letter, is_letter, is_plain, is_sign_byte};

use terms::Service;

/// Whether a byte is a capital or a digit.
pub fn is_sign(byte: u8) -> bool
    ensures { result ≡ is_sign_byte byte }
{
    byte.is_ascii_digit() || byte.is_ascii_uppercase()
}

/// Whether Bacs allows a byte in a text: capitals, digits, `.&/-` and space.
pub fn is_plain(byte: u8) -> bool
    ensures { result ≡ is_plain byte }
{
    is_sign(byte) || b".&/- ".contains(&byte)
}

/// Whether a service allows a byte in a text.
pub fn allows(service: Service, byte: u8) -> bool
    ensures { result ≡ is_letter service byte }
{
    match service {
        Service::FasterPayments => is_plain(byte) || is_faster(byte),
        _ => is_plain(byte),
    }
}

/// What Faster Payments adds: small letters and more signs.
fn is_faster(byte: u8) -> bool
    ensures { result ≡ is_faster_letter byte }
{
    byte.is_ascii_lowercase() || b"?:(),'+#=!\"%*<>;{@".contains(&byte)
}
