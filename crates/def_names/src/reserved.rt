//! The names that neither variables nor units have.

ghost use Rattle.std.specs.Prelude.{◌≡◌, map};
ghost use Rattle.def_meaning.specs.Apart.{has_name};
ghost use Rattle.def_names.specs.Reserved.{intrinsics, runtime_names, is_runtime, is_reserved};

use adj_tree::Name;

// Whether one of the texts is the name.
fn is_among(texts: &[&[u8]], name: &Name) -> bool
    ensures { result ≡ has_name name.now (map (λ t. t.now) texts.now) }
{
    for text in texts {
        if name.bytes() == *text {
            return true;
        }
    }
    false
}

/// The names of intrinsics.
pub fn intrinsic_names() -> [&'static [u8]; 7]
    ensures names { map (λ t. t.now) result ≡ intrinsics }
{
    [b"ABS", b"IABS", b"MAX", b"MAX0", b"MIN", b"MIN0", b"MOD"]
}

/// The names of calls of the runtime.
pub fn runtime_names() -> [&'static [u8]; 11]
    ensures names { map (λ t. t.now) result ≡ runtime_names }
{
    [
        b"PUSHINTEGER8",
        b"POPINTEGER8",
        b"PUSHINTEGER8ARRAY",
        b"POPINTEGER8ARRAY",
        b"PUSHCONTROL1B",
        b"POPCONTROL1B",
        b"ADZERO8",
        b"ADBEG",
        b"ADEND",
        b"ADACTN",
        b"ADACT",
    ]
}

fn is_intrinsic(name: &Name) -> bool
    ensures { result ≡ has_name name.now intrinsics }
{
    is_among(&intrinsic_names(), name)
}

/// Whether a call of the runtime has the name.
pub fn is_runtime(name: &Name) -> bool
    ensures runtime { result ≡ is_runtime name.now }
{
    is_among(&runtime_names(), name)
}

/// Whether an intrinsic or a call of the runtime has the name.
pub fn is_reserved(name: &Name) -> bool
    ensures reserved { result ≡ is_reserved name.now }
{
    is_intrinsic(name) || is_runtime(name)
}
