//! What objects are called.

use ps_facts::declared_names;
use ps_model::{Memory, ObjectId};
use ps_names::{Meaning, Names};
use ps_text::Source;
use std::alloc::Global;

/// What each object of a game is called, in the order of their numbers: by the first name that the text declares and
/// that stands for the object alone, as it is written there.
#[derive(Drop)]
pub struct Spellings {
    /// Where texts that speak of objects take memory from.
    pub alloc: Global,
    names: Vec<String>,
}

/// Calls an object by a name that stands for it alone, if it isn't called otherwise.
fn call(alloc: Global, names: &Names, found: &mut Vec<String>, name: &str) -> Result<(), Memory> {
    let Some(Meaning::One(object)) = names.meaning(name) else {
        return Ok(());
    };
    let number = object.0 as usize;
    if number < found.len() && found[number].is_empty() {
        found[number] = String::from_str(alloc, name)?;
    }
    Ok(())
}

impl Spellings {
    /// Those of a text's game. `Memory` if there is no room for them.
    pub fn of(alloc: Global, source: &Source, names: &Names) -> Result<Spellings, Memory> {
        let declared = declared_names(alloc, source)?;
        let mut found = Vec::new(alloc);
        for _number in 0..names.object_count() {
            found.push(String::new(alloc))?;
        }
        for named in &declared {
            call(alloc, names, &mut found, named.name)?;
        }
        Ok(Spellings {
            alloc,
            names: found,
        })
    }

    /// What an object is called; nothing, where the game has no such object.
    pub fn name(&self, object: ObjectId) -> &str {
        match self.names.get(object.0 as usize) {
            Some(name) => name.as_str(),
            None => "",
        }
    }
}
