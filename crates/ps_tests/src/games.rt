//! The games that the tests play.

use std::process::Abort;

/// The objects, names and layers of most games here, from the header OBJECTS on.
pub const NAMES: &str =
    "OBJECTS\nBackground .\ngreen\nWall #\nbrown\nPlayer P\nwhite\nCrate *\norange\nTarget O\nblue\nA\nred\nB\npink\n\
    C\ngray\nD\nblack\nLEGEND\n@ = Crate and Target\nAT = A or Target\nCOLLISIONLAYERS\nBackground\nTarget\n\
    Player, Wall, Crate\nA B C D\n";

/// A push that ends the game, as it stands below [`NAMES`].
pub const PUSH: &str =
    "RULES\n[ > Player | Crate ] -> [ > Player | > Crate ]\nWINCONDITIONS\nAll Target on Crate\nLEVELS\n#P*O#\n";

/// The whole text of it, which has the names above; its last byte is a cell of its level.
pub const PUSHING: &[u8] =
    b"title T\nOBJECTS\nBackground .\ngreen\nWall #\nbrown\nPlayer P\nwhite\nCrate *\norange\nTarget O\nblue\n\
A\nred\nB\npink\nC\ngray\nD\nblack\nLEGEND\n@ = Crate and Target\nAT = A or Target\n\
COLLISIONLAYERS\nBackground\nTarget\nPlayer, Wall, Crate\nA B C D\n\
RULES\n[ > Player | Crate ] -> [ > Player | > Crate ]\nWINCONDITIONS\nAll Target on Crate\nLEVELS\n#P*O#";

/// A game of two levels with a message before each, which a Player wins who steps on a Target.
pub const TWO_LEVELS: &[u8] =
    b"title T\nOBJECTS\nBackground .\ngreen\nPlayer P\nwhite\nTarget O\nblue\nLEGEND\nCOLLISIONLAYERS\n\
Background\nTarget\nPlayer\nRULES\nWINCONDITIONS\nSome Player on Target\nLEVELS\n\
message Hello\nPO\n\nmessage Now\n.PO\n";

/// The game [`PUSHING`] with two levels more: one that can't be won, and one that is won by the third of three keys.
pub const THREE_LEVELS: &[u8] =
    b"title T\nOBJECTS\nBackground .\ngreen\nWall #\nbrown\nPlayer P\nwhite\nCrate *\norange\nTarget O\nblue\n\
LEGEND\n@ = Crate and Target\nCOLLISIONLAYERS\nBackground\nTarget\nPlayer, Wall, Crate\n\
RULES\n[ > Player | Crate ] -> [ > Player | > Crate ]\nWINCONDITIONS\nAll Target on Crate\nLEVELS\n\
#P*O#\n\n#OP*#\n\nmessage Last\n#P.*.O#\n";
/// A game with a misspelt option, a rule that can do nothing, and a second level without a Player.
pub const WARNED: &[u8] =
    b"title T\nnoudno\nOBJECTS\nBackground .\ngreen\nPlayer P\nwhite\nTarget O\nblue\nLEGEND\nCOLLISIONLAYERS\n\
Background\nTarget\nPlayer\nRULES\n[ Player no Player ] -> win\nWINCONDITIONS\nSome Player on Target\nLEVELS\n\
PO\n\n.O\n";

/// A text that ends before its levels.
pub const CUT_SHORT: &[u8] =
    b"OBJECTS\nBackground .\ngreen\nPlayer P\nwhite\nLEGEND\nCOLLISIONLAYERS\nBackground\nPlayer\n\
RULES\nWINCONDITIONS\n";

/// What is written of [`PUSHING`] with the key `d`.
pub const PUSHED: &str = "= T\n# level 1\n#P*O#\n\n#.P@#\n\n* level 1 done\n* the end\n";

/// The text that these parts make.
pub fn joined(rt: &(impl Abort + AllocGlobal), parts: &[&str]) -> String {
    let mut text = String::new(rt.alloc());
    for part in parts {
        text.push_str(*part).expect(rt, "memory for a text");
    }
    text
}

/// A text that has `part` several times between its front and its back.
pub fn repeated(
    rt: &(impl Abort + AllocGlobal),
    front: &str,
    part: &str,
    count: usize,
    back: &str,
) -> String {
    let middle = part
        .repeat(rt.alloc(), count)
        .expect(rt, "memory for a text");
    joined(rt, &[front, middle.as_str(), back])
}
