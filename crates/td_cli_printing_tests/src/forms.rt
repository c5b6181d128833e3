//! TypeCodes and anys, the trading service's structures, references, and values as people write them.

mod codes;
mod forms;
mod references;
mod spelled;
mod values;
