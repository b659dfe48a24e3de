ghost use Rattle.std.specs.Prelude.{◌≡◌, None, OnOk};
ghost use Rattle.cx_includes.specs.Taking.{index_in, Adds};

use cx_outside::NoMemory;
use std::alloc::Global;
use std::collections::BTreeMap;

/// The indices of files by their names, each found in logarithmic time in their number.
#[derive(Drop)]
pub struct Names {
    indices: BTreeMap<Vec<u8>, u32>,
}

impl Names {
    pub fn new(alloc: Global) -> Self
        ensures { (name : _) → index_in result name ≡ None }
    {
        Names {
            indices: BTreeMap::new(alloc),
        }
    }

    pub fn get(&self, name: &[u8]) -> Option<u32>
        ensures { result ≡ index_in self.now name.now }
    {
        self.indices.get(name).copied()
    }

    pub fn add(&mut self, alloc: Global, name: &[u8], index: u32) -> Result<(), NoMemory>
        ensures { OnOk result (Adds name.now index self.old self.new) }
    {
        let key = Vec::from_slice(alloc, name)?;
        self.indices.insert(key, index)?;
        Ok(())
    }
}
