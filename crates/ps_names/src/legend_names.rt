//! The names of the legend, with what each mentions.

ghost use Rattle.std.specs.Prelude.{◌≡◌, ◌++◌, IfOk, OnOk, map, length, filter_map, option_map, option_to_list};
ghost use Rattle.std.specs.Prelude.{is_some};
ghost use Rattle.std.specs.List.{list_all};
ghost use Rattle.std.specs.Str.{bytes_eq};
ghost use Rattle.std.specs.Map.{lookup};
ghost use Rattle.ps_model.specs.text.Lines.{folded};
ghost use Rattle.ps_model.specs.names.Meanings.{legend_name};
ghost use Rattle.ps_names.specs.Known.{mention_shown, mentions_shown, mentions_of_names};
ghost use Rattle.ps_names.specs.LegendShown.{declaration_shown, declarations_shown};
ghost use Rattle.ps_names.specs.LegendNames.{found_among, name_shown, legend_shown};

use crate::known::Known;
use crate::legend::Declaration;
use crate::mention::Mention;
use ps_model::{Joiner, Memory};
use std::alloc::Global;

/// A name of the legend.
pub struct LegendName<'a> {
    /// The number, from 1, of the line that declares it.
    pub line: u32,
    pub name: &'a str,
    pub joiner: Joiner,
    /// Whose the names on the right are, without those that nothing declares.
    pub mentions: Vec<Mention>,
    /// Something declares each name on the right.
    pub all_declared: bool,
}

/// Written out: an owner of a name calls this on each return path, and doesn't drop its parts there.
impl Drop for LegendName<'_> {
    fn drop(self) {
        let LegendName {
            line: _,
            name: _,
            joiner: _,
            mentions: _mentions,
            all_declared: _,
        } = self;
    }
}

/// Whose the names on the right of a legend line are.
#[derive(Drop)]
struct Mentions {
    found: Vec<Mention>,
    all_declared: bool,
}

/// Whose a name as it is written is.
fn mention_named(alloc: Global, known: &Known, name: &str) -> Result<Option<Mention>, Memory>
    ensures { IfOk result (λ mention. option_map mention_shown mention
        ≡ lookup (bytes_eq (folded name.now)) (mentions_of_names known.now)) }
{
    let folded = name.to_ascii_lowercase(alloc)?;
    Ok(known.get(folded.as_str()))
}

/// Puts a mention last, if there is one.
fn push_mention(made: &mut Vec<Mention>, mention: Option<Mention>) -> Result<(), Memory>
    ensures { OnOk result (mentions_shown made.new.items
        ≡ mentions_shown made.old.items ++ option_to_list (option_map mention_shown mention)) }
{
    let Some(mention) = mention else {
        return Ok(());
    };
    made.push(mention)?;
    Ok(())
}

/// Whose the names are.
fn mentions_named(alloc: Global, known: &Known, names: &[&str]) -> Result<Mentions, Memory>
    ensures found { IfOk result (λ made. mentions_shown made.found.items
        ≡ filter_map (λ mention. mention) (found_among known.now (map (λ n. n.now) names.now))) }
    ensures all { IfOk result (λ made. made.all_declared
        ≡ list_all is_some (found_among known.now (map (λ n. n.now) names.now))) }
{
    let mut found = Vec::new(alloc);
    let mut all_declared = true;
    for name in names {
        let mention = mention_named(alloc, known, name)?;
        all_declared = all_declared && mention.is_some();
        push_mention(&mut found, mention)?;
    }
    Ok(Mentions {
        found,
        all_declared,
    })
}

/// A declaration over the names that are known.
fn legend_name<'a>(
    alloc: Global,
    known: &Known,
    declared: &Declaration<'a>,
) -> Result<LegendName<'a>, Memory>
    ensures { IfOk result (λ name. name_shown name
        ≡ legend_name (mentions_of_names known.now) (declaration_shown declared.now)) }
{
    let mentions = mentions_named(alloc, known, &declared.right.names)?;
    Ok(LegendName {
        line: declared.line,
        name: declared.name,
        joiner: declared.right.joiner,
        mentions: mentions.found,
        all_declared: mentions.all_declared,
    })
}

/// The names of the legend, in order of declaration, over the names that are known.
pub fn legend_names<'a>(
    alloc: Global,
    known: &Known,
    declarations: &[Declaration<'a>],
) -> Result<Vec<LegendName<'a>>, Memory>
    ensures long { IfOk result (λ made. length made.items ≡ length declarations.now) }
    ensures names { IfOk result (λ made. legend_shown made.items
        ≡ map (legend_name (mentions_of_names known.now)) (declarations_shown declarations.now)) }
{
    let mut made = Vec::new(alloc);
    for declared in declarations {
        let name = legend_name(alloc, known, declared)?;
        made.push(name)?;
    }
    Ok(made)
}
