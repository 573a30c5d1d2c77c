// Runs the proved card, block, masks and search on vectors worked by hand, and prints "ok NAME" for each, or "DIFFERS NAME" where the function
// gives something else. Beside each vector stands how its bytes come about, from docs/RULES.md, chapters 1, 3, 4 and 11, and the
// places and NV entries of docs/object-table.md.
#![tactic(auto)]

mod blocks;
mod cards;
mod masks;
mod report;
mod searches;
mod stores;

use std::io;

fn main(rt: HostRuntime) -> io::Result<()> {
    cards::shown(&rt)?;
    cards::judged(&rt)?;
    cards::written(&rt)?;
    blocks::headers(&rt)?;
    blocks::rests(&rt)?;
    blocks::limits(&rt)?;
    blocks::crossed(&rt)?;
    stores::stored(&rt)?;
    stores::refused(&rt)?;
    stores::back(&rt)?;
    masks::hidden(&rt)?;
    masks::loaded(&rt)?;
    searches::rows(&rt)?;
    searches::absent_indices(&rt)?;
    searches::absent_subs(&rt)
}
