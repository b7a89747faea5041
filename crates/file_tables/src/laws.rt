//! What holds of the files of a checked program. A law has at most other laws in its body: its contract is the law.
ghost use Rattle.file_tables.specs.Laws.{CheckedFilesAreEmittable};

use file_words::laws::{
    names_are_words, names_have_few_parts, names_of_values_are_words, numbers_are_whole,
    numbers_of_values_are_whole, outputs_are_words, texts_have_few_holes,
};
use sound_files::laws::{
    checked_files_are_paired, checked_files_are_sound, checked_values_are_sound,
};

/// A file of a program that is read and checked has all that its declarations and values need to be emitted.
pub fn checked_files_are_emittable()
    ensures { CheckedFilesAreEmittable }
{
    texts_have_few_holes();
    checked_files_are_paired();
    checked_files_are_sound();
    checked_values_are_sound();
    names_are_words();
    names_of_values_are_words();
    names_have_few_parts();
    numbers_are_whole();
    numbers_of_values_are_whole();
    outputs_are_words();
}
