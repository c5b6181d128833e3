//! New offers of one trader, and what each export comes to (OMG's Trading Object Service, interface Register, export,
//! and interface Proxy, export_proxy).
#![tactic(auto)]

mod exporting;
mod proxy_exporting;

pub use exporting::export;
pub use proxy_exporting::export_proxy;
