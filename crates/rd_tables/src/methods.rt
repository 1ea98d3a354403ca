//! The methods of a kind.
ghost use Rattle.std.specs.Prelude.{◌<◌, ◌^◌};
ghost use Rattle.indexmap.specs.IndexMap.{index_map_len};

use indexmap::IndexMap;
use rd_base::{Name, NoMemory};
use rd_ecl::KindSpec;
use std::alloc::Global;

/// The methods of a kind, by name, in their order. There are at most 255.
#[derive(Drop)]
pub struct Methods {
    /// each with how many slots its calls have
    slots: IndexMap<Name, u8>,
    ghost few: { index_map_len slots < 2 ^ 8 },
}

/// What a look-up of a method's name finds: its number and how many slots its calls have. Where there
/// is none, the number is the next one, and there are no slots.
#[derive(Clone, Copy)]
pub struct FoundMethod {
    pub number: u8,
    pub unknown: bool,
    pub slots: u8,
}

impl Methods {
    ghost use Rattle.std.specs.Prelude.{◌≡◌, map, false, IfOk};
    ghost use Rattle.rd_base.specs.Names.{IsName};
    ghost use Rattle.rd_ecl.specs.Kinds.{method_of};
    ghost use Rattle.rd_tables.specs.Tables.{found_method, methods_in};

    /// The methods of a kind.
    pub fn of(alloc: Global, kind: &KindSpec) -> Result<Methods, NoMemory>
        ensures { IfOk result (λ methods. methods_in methods ≡ map method_of kind.now.methods) }
    {
        let mut slots = IndexMap::new(alloc);
        for method in kind.methods() {
            slots.insert(method.name.copy(), method.variables.items().len() as u8)?;
        }
        Ok(Methods { slots })
    }

    /// The method whose name has these bytes. A kind has few, so they are compared one after another.
    pub fn find(&self, name: &[u8]) -> FoundMethod
        ensures found { result ≡ found_method (methods_in self.now) name.now }
        ensures named { result.unknown ≡ false → IsName name.now }
    {
        for number in 0..self.slots.len() {
            let (known, slots) = self.slots.get_index(number).unwrap();
            if known.items() == name {
                return FoundMethod {
                    number: number as u8,
                    unknown: false,
                    slots: *slots,
                };
            }
        }
        FoundMethod {
            number: self.slots.len() as u8,
            unknown: true,
            slots: 0,
        }
    }
}
