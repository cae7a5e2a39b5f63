//! Where to look first for the module of a name.

ghost use Rattle.std.specs.Prelude.{◌≡◌, ◌<◌, true, Some, IfSome, length};
ghost use Rattle.lx_model.specs.Library.{has_name, module_named, module_of};

use lx_types::Name;
use mod_graph::Library;

/// How many hints there are.
const HINTS: usize = 256;

/// How many hints a name has: the one of its key, and those after it.
const TRIES: usize = 4;

/// The number of a module at the key of its name, or at the next place that was free: where to look first. Nothing rests on
/// it.
#[derive(Drop)]
pub struct NameHints {
    modules: [Option<u8>; HINTS],
}

// The letter so many places before the end of a name, in lower case, and 0 where there is none.
fn letter(name: &[u8], back: usize) -> u8 {
    match name.get(name.len().wrapping_sub(back)) {
        Some(byte) => byte.to_ascii_lowercase(),
        None => 0,
    }
}

// The key of a name, by its last three letters: the same in upper and in lower case.
fn key(name: &Name) -> usize {
    let bytes = name.bytes();
    let last = letter(bytes, 1);
    let before = letter(bytes, 2).wrapping_mul(37);
    let third = letter(bytes, 3).wrapping_mul(101);
    usize::from(last.wrapping_add(before).wrapping_add(third))
}

// Whether module `m` of a library has a name.
fn is_named(lib: &Library, m: u32, name: &Name) -> bool
    requires { m < length lib.now }
    ensures { result ≡ has_name name.now (module_of lib.now m) }
{
    lib.module(m).name().same_module(name)
}

// Whether it is module `m` of a library that a name means: no two have one name.
fn is_meant(lib: &Library, m: u32, name: &Name) -> bool
    requires { m < length lib.now }
    ensures { result ≡ true → module_named lib.now name.now ≡ Some m }
{
    let _ = lib.len();
    is_named(lib, m, name)
}

impl NameHints {
    /// The hints of a library's modules.
    pub fn of(lib: &Library) -> NameHints {
        let mut hints = NameHints {
            modules: [None; HINTS],
        };
        for m in 0..lib.len() {
            hints.put(key(lib.module(m).name()), m);
        }
        hints
    }

    // Puts a module at the first free one of the hints of a key, if one is free.
    fn put(&mut self, key: usize, m: u32) {
        for back in 0..TRIES {
            let place = key.wrapping_add(back) % HINTS;
            if self.modules[place].is_none() {
                self.modules[place] = Some((m % 256) as u8);
                return;
            }
        }
    }

    // The module that a name means, where one of its hints finds it.
    fn hinted(&self, lib: &Library, name: &Name) -> Option<u32>
        ensures { IfSome result (λ m. (module_named lib.now name.now ≡ Some m) × (m < length lib.now)) }
    {
        let key = key(name);
        for back in 0..TRIES {
            let m = u32::from(self.modules[key.wrapping_add(back) % HINTS]?);
            if m < lib.len() && is_meant(lib, m, name) {
                return Some(m);
            }
        }
        None
    }

    /// The module that a name means. One whose hint finds it is found without a look at the others.
    pub fn find(&self, lib: &Library, name: &Name) -> Option<u32>
        ensures number { result ≡ module_named lib.now name.now }
        ensures within { IfSome result (λ m. m < length lib.now) }
    {
        match self.hinted(lib, name) {
            Some(m) => Some(m),
            None => lib.find(name),
        }
    }
}
