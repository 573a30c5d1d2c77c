// Power-up, and what it shares with a load.
ghost use Rattle.std.specs.Prelude.{◌≡◌};
ghost use Rattle.block.specs.Saved.{loadable};
ghost use Rattle.gauge.specs.PowerUp.{block_taken, fresh_values};

use crate::masks;
use table::{Block, Values};

// The NV entries from the saved block, if it is not faulty; its masks act at once.
pub fn take_block(values: &mut Values, block: &Block) -> bool
    ensures taken { result ≡ loadable block.now }
    ensures values { values.new ≡ block_taken block.now values.old }
{
    let taken = load::load(block, values);
    masks::heed(values, taken);
    taken
}

// Defaults everywhere, then the saved block.
pub fn fill(values: &mut Values, block: &Block)
    ensures { values.new ≡ fresh_values block.now }
{
    entry::put_defaults(values);
    take_block(values, block);
}
