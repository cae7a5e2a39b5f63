//! The types that the object side, the module side and the loader share.
#![tactic(auto)]

mod bases;
mod counts;
mod digits;
mod entry;
mod escaped;
mod fail;
mod fix;
mod laws;
mod limits;
mod module;
mod name;
mod object;
mod parts;
mod refusal;
mod resource;
mod selectors;
mod seq;
mod shared_numbers;
mod sharing;

pub use bases::{Bases, ModBases, object_base};
pub use counts::count;
pub use digits::{push_hex_address, push_hex_byte};
pub use entry::{EntryHead, EntryKey, FwdKey};
pub use escaped::push_escaped;
pub use fail::{Fail, NoMemory};
pub use fix::{Fix, FixTarget, Source};
pub use laws::{format_numbers, limits_are};
pub use limits::{
    BASE_UNIT, MAX_FILE, MAX_LOADS, MAX_MODULES, MAX_MODULES_LEN, MAX_OBJECTS, MAX_PAGES,
    MAX_PROCESSES, PAGE_LEN, PRIVATE_FROM, PageBytes, SHARED_END, SHARED_FROM,
};
pub use module::Module;
pub use name::{Name, NameLong};
pub use object::{
    Class, OBJECT_ALIAS, OBJECT_BIG, OBJECT_CONFORMING, OBJECT_EXECUTABLE, OBJECT_IOPL,
    OBJECT_PRELOAD, OBJECT_READABLE, OBJECT_SHARED, OBJECT_WRITABLE, ObjHead, PAGE_SIZE, PageHead,
    PageId, PageKind,
};
pub use parts::{MODULE_INIT_EACH, MODULE_KIND, MODULE_LIBRARY, MODULE_TERM_EACH, Parts};
pub use refusal::{LxKind, LxRefusal};
pub use resource::ResSpot;
pub use selectors::{FLAT_CODE, FLAT_DATA, selected_offset, selector, tiled_selector};
pub use seq::{Bytes, Names, Numbers, Seq};
pub use shared_numbers::SharedNumbers;
