ghost use Rattle.std.specs.Prelude.{◌≡◌};
ghost use Rattle.problem_settings.specs.ProblemYaml.{key_named};

/// The keys of `problem.yaml` that are read.
#[derive(Clone, Copy, Debug, PartialEq, Eq)]
pub(crate) enum Key {
    Name,
    Validation,
    Flags,
    Limits,
}

impl Key {
    pub(crate) fn named(key: &[u8]) -> Option<Key>
        ensures { result ≡ key_named key.now }
    {
        if key == b"name".as_slice() {
            Some(Key::Name)
        } else if key == b"validation".as_slice() {
            Some(Key::Validation)
        } else if key == b"validator_flags".as_slice() {
            Some(Key::Flags)
        } else if key == b"limits".as_slice() {
            Some(Key::Limits)
        } else {
            None
        }
    }
}
