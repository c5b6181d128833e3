//! Tests of td_typecode, td_value, td_ior, td_forms and td_cli_printing: TypeCodes and anys, the trading service's
//! structures, references, values as people write them, and how they are shown.
#![tactic(auto)]

#[cfg(test)]
mod answers;
#[cfg(test)]
mod forms;
#[cfg(test)]
mod values;
