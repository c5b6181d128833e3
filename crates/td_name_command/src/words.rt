//! The words of the command.

ghost use Rattle.std.specs.Prelude.{◌≡◌, ◌≤◌, IfSome, length, map, string_bytes};
ghost use Rattle.std.specs.Option.{option_map};
ghost use Rattle.td_cdr.specs.Text.{HasNoNul};
ghost use Rattle.td_name_command.specs.Words.{fits_host, home, home_named, home_of};

use td_cdr::has_nul;
use td_ior::number_up_to;

/// The host and the port that the words name: `names HOST PORT`, with a host of at most 1,000 bytes without a NUL, and
/// a port from 0 to 65535 in decimal without leading zeros.
pub(crate) fn home_of(args: &[String]) -> Option<(&str, u16)>
    ensures content { option_map (λ h. home h.0.now h.1) result
        ≡ home_of (map string_bytes args.now) }
    ensures plain { IfSome result (λ h. HasNoNul h.0.now) }
    ensures short { IfSome result (λ h. length h.0.now ≤ 1000) }
{
    match args {
        [word, host, port] => {
            if word.as_str() == "names" {
                home_named(host.as_str(), port.as_str())
            } else {
                None
            }
        }
        _ => None,
    }
}

/// The host and the port that two words name: a host of at most 1,000 bytes without a NUL, and a port from 0 to 65535
/// in decimal without leading zeros.
pub fn home_named<'w>(host: &'w str, port: &str) -> Option<(&'w str, u16)>
    ensures content { option_map (λ h. home h.0.now h.1) result ≡ home_named host.now port.now }
    ensures plain { IfSome result (λ h. HasNoNul h.0.now) }
    ensures short { IfSome result (λ h. length h.0.now ≤ 1000) }
{
    if !fits_host(host.as_bytes()) {
        return None;
    }
    match number_up_to(port.as_bytes(), 65535) {
        Some(port) => Some((host, port as u16)),
        None => None,
    }
}

/// Whether these bytes are a host: at most 1,000, without a NUL.
fn fits_host(host: &[u8]) -> bool
    ensures { result ≡ fits_host host.now }
{
    host.len() <= 1000 && !has_nul(host)
}
