// Files whose names are found.
ghost use Rattle.std.specs.Prelude.{List, map};
ghost use Rattle.bicep_tree.specs.View.{file_of};
ghost use Rattle.bicep_found.specs.Found.{Found, Gives, mapped, both};
ghost use Rattle.bicep_names.specs.Scope.{scope};
ghost use Rattle.bicep_declared.specs.Declare as spec;
ghost use Rattle.bicep_declared.specs.Declarations.{DeclaredTree, OutputTree};
ghost use Rattle.bicep_declared.specs.View.{declarations_tree, outputs_tree, file_tree, site_tree};

use crate::declarations::{declared, output_declared};
use crate::declared::{Declared, DeclaredFile, DeclaredOutput};
use crate::sites::{Site, sites};
use bicep_found::Stop;
use bicep_found::join::{lacks, pair, push_some};
use bicep_names::{Outputs, Symbols};
use bicep_tree::Statement;
use std::alloc::Global;

fn declare_all(
    alloc: Global,
    symbols: &Symbols,
    outputs: &[Outputs],
    sites: &[Site<'_>],
) -> Result<Vec<Declared>, Stop>
    ensures { Gives declarations_tree result
        (spec.declared_all (scope symbols.now outputs.now) (map site_tree sites.now)) }
{
    let mut found = Vec::new(alloc);
    for site in sites {
        let part = declared(alloc, symbols, outputs, *site);
        match push_some(&mut found, part) {
            Ok(()) => {}
            Err(stop) => return lacks(found, stop),
        }
    }
    Ok(found)
}

fn declare_outputs(
    alloc: Global,
    symbols: &Symbols,
    outputs: &[Outputs],
    sites: &[Site<'_>],
) -> Result<Vec<DeclaredOutput>, Stop>
    ensures { Gives outputs_tree result
        (spec.outputs_declared (scope symbols.now outputs.now) (map site_tree sites.now)) }
{
    let mut found = Vec::new(alloc);
    for site in sites {
        let part = output_declared(alloc, symbols, outputs, *site);
        match push_some(&mut found, part) {
            Ok(()) => {}
            Err(stop) => return lacks(found, stop),
        }
    }
    Ok(found)
}

fn joined(
    declarations: Result<Vec<Declared>, Stop>,
    outputs: Result<Vec<DeclaredOutput>, Stop>,
) -> Result<DeclaredFile, Stop>
    ensures { (f : Found (List DeclaredTree)) (g : Found (List OutputTree)) → Gives declarations_tree declarations f
        → Gives outputs_tree outputs g → Gives file_tree result (mapped spec.file (both f g)) }
{
    match pair(declarations, outputs) {
        Ok((declarations, outputs)) => Ok(DeclaredFile {
            declarations,
            outputs,
        }),
        Err(stop) => Err(stop),
    }
}

fn declare_sites(
    alloc: Global,
    symbols: &Symbols,
    outputs: &[Outputs],
    sites: &[Site<'_>],
) -> Result<DeclaredFile, Stop>
    ensures { Gives file_tree result (mapped spec.file
        (both (spec.declared_all (scope symbols.now outputs.now) (map site_tree sites.now))
        (spec.outputs_declared (scope symbols.now outputs.now) (map site_tree sites.now)))) }
{
    let declarations = declare_all(alloc, symbols, outputs, sites);
    let found = declare_outputs(alloc, symbols, outputs, sites);
    joined(declarations, found)
}

/// The declarations and the outputs of a file, whose symbols these are. `outputs` has the outputs of each file of the
/// program.
///
/// # Errors
///
/// - `Unknown`: the name at that offset means nothing.
/// - `OutOfMemory`.
#[tactic(auto, unfolding(crate::specs::Declare::declared_file))]
pub fn declare_file(
    alloc: Global,
    symbols: &Symbols,
    outputs: &[Outputs],
    file: &[Statement],
) -> Result<DeclaredFile, Stop>
    ensures { Gives file_tree result (spec.declared_file (scope symbols.now outputs.now) (file_of file.now)) }
{
    match sites(alloc, file) {
        Ok(sites) => declare_sites(alloc, symbols, outputs, sites.as_slice()),
        Err(_) => Err(Stop::OutOfMemory),
    }
}
