//! Where the server is reached.

ghost use Rattle.std.specs.Prelude.{◌≡◌, ◌||◌, nat_lt, length};
ghost use Rattle.std.specs.List.{list_any};
ghost use Rattle.td_cdr.specs.Text.{has_nul};
ghost use Rattle.td_lines.specs.Causes.{ParsesLine};
ghost use Rattle.td_lines.specs.Homes.{parse_home, is_no_host, with_minor};

use crate::cause::{LineCause, Misfit};
use crate::entry::Home;
use std::alloc::Global;
use td_cdr::{Text, has_nul};
use td_ior::number_up_to;

/// Whether one of these texts has a NUL.
pub(crate) fn have_nul(texts: &[Text]) -> bool
    ensures { result ≡ list_any has_nul texts.now }
{
    texts.iter().any(|text| has_nul(text.as_slice()))
}

/// Whether these bytes are no host: more than 1,000, or with a NUL.
fn is_no_host(host: &[u8]) -> bool
    ensures { result ≡ is_no_host host.now }
{
    host.len() > 1000 || has_nul(host)
}

/// The address that a host and a port tell, reached by IIOP 1.0.
pub(crate) fn parse_home(alloc: Global, host: &[u8], port: &[u8]) -> Result<Home, Misfit>
    ensures { ParsesLine (parse_home host.now port.now) result }
{
    if is_no_host(host) {
        return Err(Misfit::Is(LineCause::Name));
    }
    let Some(port) = number_up_to(port, 65535) else {
        return Err(Misfit::Is(LineCause::Number));
    };
    let host = Text::from_slice(alloc, host)?;
    Ok(Home {
        host,
        port: port as u16,
        minor: 0,
    })
}

impl Home {
    /// The same address, reached by IIOP 1.`minor`.
    pub(crate) fn set_minor(&mut self, minor: u8)
        ensures { self.new ≡ with_minor minor self.old }
    {
        self.minor = minor;
    }
}
