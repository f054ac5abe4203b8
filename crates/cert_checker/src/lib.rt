//! Certificates of tilings, their texts, and the check that judges a certificate by its own numbers.
#![tactic(auto)]

mod certs;
mod checking;
mod laws;
mod parsing;
mod printing;
mod reading;

pub use certs::{Cert, CertText, Verdict};
pub use checking::check;
pub use laws::{read_back, texts_have_one_reading};
pub use parsing::parse_cert;
pub use printing::{print_cert, put_letters, put_rows};
