// Lists of texts.
ghost use Rattle.std.specs.Prelude.{◌≡◌, IfOk};

use crate::list_of::ListOf;
use crate::memory::OutOfMemory;
use crate::text::Text;
use std::alloc::Global;

/// A list of texts, which contracts see as the list of their characters' lists.
pub type Texts = ListOf<Text>;

/// The same texts again.
pub fn copy_texts(alloc: Global, texts: &Texts) -> Result<Texts, OutOfMemory>
    ensures { IfOk result (λ t. t ≡ texts.now) }
{
    let mut copies = Texts::new(alloc);
    for text in texts.as_slice() {
        copies.push(text.copy(alloc)?)?;
    }
    Ok(copies)
}
