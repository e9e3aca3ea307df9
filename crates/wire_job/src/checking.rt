ghost use Rattle.std.specs.Prelude.{◌≡◌, ℕ, List, None, true};
ghost use Rattle.case_run.specs.Cases.{CanCheck};
ghost use Rattle.case_run.specs.Images.{is_image};
ghost use Rattle.wire_job.specs.Checks.{own_checking};
ghost use Rattle.wire_job.specs.Reading.{has_validator, is_comparable, fault_of};

use crate::faults::{JobFault, JobField};
use crate::job::OwnCheck;
use case_run::image_ok;
use default_validator::wide_token;
use farm_kinds::raw_image;

/// Whether the validator is a raw image, where there is one.
fn has_validator(check: &OwnCheck) -> bool
    ensures { result ≡ has_validator (own_checking check.now) }
{
    match check {
        OwnCheck::Default(_) => true,
        OwnCheck::Custom { image, .. } => raw_image(image.as_slice()),
    }
}

/// Whether the answer has no token that is too wide to be compared.
fn is_comparable(check: &OwnCheck, answer: &[u8]) -> bool
    ensures { result ≡ is_comparable (own_checking check.now) answer.now }
{
    match check {
        OwnCheck::Default(flags) => wide_token(flags, answer).is_none(),
        OwnCheck::Custom { .. } => true,
    }
}

/// The first field that does not let a case be run.
pub fn fault_of(check: &OwnCheck, image: &[u8], answer: &[u8]) -> Option<JobFault>
    ensures fault { result ≡ fault_of (own_checking check.now) image.now answer.now }
    ensures image { result ≡ None → is_image image.now ≡ true }
    ensures check { result ≡ None → CanCheck (own_checking check.now) answer.now }
{
    if !has_validator(check) {
        return Some(JobFault::BadField {
            name: JobField::Validator,
        });
    }
    if !image_ok(image) {
        return Some(JobFault::BadField {
            name: JobField::Image,
        });
    }
    if !is_comparable(check, answer) {
        return Some(JobFault::BadField {
            name: JobField::Answer,
        });
    }
    None
}
