//! The greatest number among the objects of a list. Lists of the same objects have the same one, so that most lists are
//! told apart by it alone.

ghost use Rattle.std.specs.Prelude.{◌≡◌, IfOk, map, vec_len};
ghost use Rattle.ps_model.specs.names.Names.{members};
ghost use Rattle.ps_names.specs.GlyphsShown.{glyph_shown};
ghost use Rattle.ps_screen.specs.Glyphs.{AreByGreatest, with_greatest};
ghost use Rattle.ps_screen.specs.GreatestObjects.{greater, greatest};

use ps_model::{Memory, ObjectId};
use ps_names::Glyph;
use std::alloc::Global;

/// The greatest number among some objects; 0, where there are none.
pub fn greatest(objects: &[ObjectId]) -> u32
    ensures { result ≡ greatest objects.now }
{
    let mut most = 0;
    let mut left = objects.len();
    while 0 < left {
        left -= 1;
        most = greater(objects[left].0, most);
    }
    most
}

/// The greater of two numbers.
fn greater(first: u32, second: u32) -> u32
    ensures { result ≡ greater first second }
{
    if second < first {
        return first;
    }
    second
}

/// The greatest number among the objects of each of some glyphs.
///
/// # Errors
///
/// `Memory`.
fn greatest_of_each(alloc: Global, glyphs: &[&Glyph]) -> Result<Vec<u32>, Memory>
    ensures { IfOk result (λ mosts. mosts.items
        ≡ map (λ glyph. greatest (members (glyph_shown glyph.now).meaning)) glyphs.now) }
{
    let mosts: Vec<u32> = glyphs
        .iter()
        .map(|glyph| greatest(glyph.meaning.members()))
        .collect(alloc)?;
    Ok(mosts)
}

/// Of some glyphs those among whose objects this number is the greatest, in their order.
///
/// # Errors
///
/// `Memory`.
fn with_greatest<'g>(
    alloc: Global,
    glyphs: &[&'g Glyph],
    mosts: &[u32],
    number: u32,
) -> Result<Vec<&'g Glyph>, Memory>
    requires { mosts.now ≡ map (λ glyph. greatest (members (glyph_shown glyph.now).meaning)) glyphs.now }
    ensures { IfOk result (λ found. map (λ glyph. glyph_shown glyph.now) found.items
        ≡ with_greatest (map (λ glyph. glyph_shown glyph.now) glyphs.now) number) }
{
    let mut found = Vec::new(alloc);
    for index in 0..glyphs.len() {
        let glyph = glyphs[index];
        if mosts[index] == number {
            found.push(glyph)?;
        }
    }
    Ok(found)
}

/// For each number below a count those of some glyphs among whose objects it is the greatest, in their order.
///
/// # Errors
///
/// `Memory`.
pub fn by_greatest<'g>(
    alloc: Global,
    glyphs: &[&'g Glyph],
    count: u32,
) -> Result<Vec<Vec<&'g Glyph>>, Memory>
    ensures lists { IfOk result (λ lists. AreByGreatest (map (λ glyph. glyph_shown glyph.now) glyphs.now)
        (map (λ list. map (λ glyph. glyph_shown glyph.now) list.items) lists.items)) }
    ensures long { IfOk result (λ lists. vec_len lists ≡ count) }
{
    let mosts = greatest_of_each(alloc, glyphs)?;
    let mut lists = Vec::new(alloc);
    for number in 0..count {
        lists.push(with_greatest(alloc, glyphs, &mosts, number)?)?;
    }
    Ok(lists)
}
