//! Declarations of resources that are put, and of modules.
ghost use Rattle.std.specs.Prelude.{◌≡◌, ℕ, Some, is_some, option_map};
ghost use Rattle.bicep_declared.specs.View.{declared_tree};
ghost use Rattle.bicep_meaning.specs.Files.{SourceFile, declaration};
ghost use Rattle.bicep_meaning.specs.Instances.{put_by};
ghost use Rattle.filled_tables.specs.Seen.{file_in};
ghost use Rattle.emitted_dependencies.specs.Elements.{IsPutAt};

use bicep_declared::Declared;
use filled_tables::Table;

// Whether a declaration is that of a resource that is put, or of a module.
fn is_put(declared: &Declared) -> bool
    ensures { (f : SourceFile) (n : ℕ) → result ≡ is_some (put_by f n (Some (declared_tree declared.now))) }
{
    match declared {
        Declared::Resource(_, _, existing, _) => !*existing,
        Declared::Module(_, _) => true,
        Declared::Parameter(_, _) | Declared::ParameterWith(_, _, _) | Declared::Variable(_, _) => {
            false
        }
    }
}

/// The declaration of a number, where there is one.
pub fn declared_at<'a>(table: &Table<'a>, number: usize) -> Option<&'a Declared>
    ensures { declaration (file_in table.now) number ≡ option_map (λ d. declared_tree d.now) result }
{
    table.file().declared.declarations.get(number)
}

/// The declaration of a number, where it is that of a resource that is put, or of a module.
pub(crate) fn put_declaration<'a>(table: &Table<'a>, number: usize) -> Option<&'a Declared>
    ensures { IsPutAt (file_in table.now) number (option_map (λ d. declared_tree d.now) result) }
{
    match declared_at(table, number) {
        Some(declared) => {
            if is_put(declared) {
                Some(declared)
            } else {
                None
            }
        }
        None => None,
    }
}
