//! Laws: a printed certificate can be read back, and a text has one reading.
ghost use Rattle.std.specs.Prelude.{◌≡◌, ℕ, ◌+◌, ◌-◌, ◌<◌, ◌^◌, List, IfOk, IfErr};
ghost use Rattle.cert_checker.specs.CertTexts.{CertParts, IsLawfulCertificate, certificate_parts};
ghost use Rattle.cert_checker.specs.CertReading.{ReadsAsCertificate, HasCertificateFault};
ghost use Rattle.text_io.specs.WordLists.{Kept};
ghost use Rattle.fku_types.specs.declared.fault.Fault.TheVariants.{NoMemory};

use crate::certs::CertText;
use crate::parsing::parse_cert;
use crate::printing::print_cert;
use fku_types::Fault;
use fku_types::limits::MAX_CHECK_BYTES;
use std::alloc::Global;

/// Prints a certificate and reads the text, after any number of lines: `Ok` has the same certificate. The only error is
/// `NoMemory`.
pub fn read_back(alloc: Global, text: &CertText, lines_before: u32) -> Result<CertText, Fault>
    requires lawful { IsLawfulCertificate (certificate_parts text.now) }
    requires few_before { lines_before + MAX_CHECK_BYTES < 2 ^ 32 - 1 }
    ensures ok { IfOk result (λ t. certificate_parts t ≡ certificate_parts text.now) }
    ensures err { IfErr result (λ f. f ≡ NoMemory) }
{
    let bytes = print_cert(alloc, text)?;
    parse_cert(alloc, &bytes, lines_before)
}

/// A text reads as at most one certificate, has its fault at one line at most, and never both.
pub fn texts_have_one_reading()
    ensures certificate { (kept : List Kept) (C D : CertParts) → ReadsAsCertificate kept C → ReadsAsCertificate kept D
        → C ≡ D }
    ensures line { (kept : List Kept) (last m n : ℕ) → HasCertificateFault kept last m → HasCertificateFault kept last n
        → m ≡ n }
    ensures either { (kept : List Kept) (last n : ℕ) (C : CertParts) → ReadsAsCertificate kept C
        → HasCertificateFault kept last n → ⊥ }
{}
