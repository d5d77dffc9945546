// The opened tree: it keeps hold of the lent body, and is asked many times.
#![tactic(auto)]

ghost use Rattle.std.specs.Prelude.{◌≡◌};
ghost use Rattle.query.specs.Query.{Promises};
ghost use Rattle.opened.specs.Held.{held_tiles, kept_part, Holds, OpenedPromises};

use boxes::Window;
use description::Description;
use query::Answer;

// A refused one holds an empty body and n 0.
#[derive(Clone, Copy)]
pub struct OpenTree<'a> {
    pub body: &'a [u8],
    pub tiles: u64,
    pub description: Description,
}

// Opens a footer and a tree body together, and keeps hold of the body.
pub fn open_tree<'a>(
    description: Description,
    file_size: u64,
    footer: &[u8],
    body: &'a [u8],
) -> OpenTree<'a>
    ensures { Holds description file_size footer.now body.now result }
{
    let n = opened_tiles(description, file_size, footer, body);
    let part = held_part(body, n);
    OpenTree {
        body: part,
        tiles: n,
        description,
    }
}

// The query of an opened tree.
pub fn ask<'a>(tree: OpenTree<'a>, window: Window, out: &mut [u32]) -> Answer
    ensures { Promises tree.entry.description tree.entry.tiles tree.entry.body.now window result out.old out.new }
{
    query::query(tree.description, tree.tiles, tree.body, window, out)
}

// Opens and asks once.
pub fn open_and_ask(
    description: Description,
    file_size: u64,
    footer: &[u8],
    body: &[u8],
    window: Window,
    out: &mut [u32],
) -> Answer
    ensures { OpenedPromises description file_size footer.now body.now window result
        out.old out.new }
{
    ask(open_tree(description, file_size, footer, body), window, out)
}

// The number of tiles, 0 where opening is refused.
fn opened_tiles(description: Description, file_size: u64, footer: &[u8], body: &[u8]) -> u64
    ensures { result ≡ held_tiles description file_size footer.now body.now }
{
    let opened = opening::open(description, file_size, footer, body);
    opened.tiles
}

// All of the body, or nothing of it where n is 0.
fn held_part<'a>(body: &'a [u8], n: u64) -> &'a [u8]
    ensures { result.now ≡ kept_part body.now n }
{
    if n == 0 { &body[..0] } else { body }
}
