// Why sources are refused.

ghost use Rattle.std.specs.Prelude.{◌≡◌, encode_utf8_all, IfOk};
ghost use Rattle.command_refusals.specs.Sources.{at_place, check_report, file_name, lex_report};
ghost use Rattle.command_refusals.specs.Sources.{load_report, parse_report};

use crate::listing::of_names;
use crate::words::{at_place, of_text, out_of_memory, tree_fault};
use arm_value::{OutOfMemory, Text};
use bicep_lexer::LexFault;
use bicep_parser::ParseFault;
use bicep_program::{LoadFault, SourceFile};
use bicep_types::CheckFault;
use command_reports::{Report, refusal_report};
use std::alloc::Global;

// The lexer refuses a file.
fn lex_report(alloc: Global, file: &str, fault: LexFault) -> Result<Report, OutOfMemory>
    ensures { IfOk result (λ r. r ≡ lex_report file.now fault) }
{
    match fault {
        LexFault::BadCharacter(at) => at_place(alloc, "BadCharacter", file, at),
        LexFault::OpenText(at) => at_place(alloc, "OpenText", file, at),
        LexFault::BadEscape(at) => at_place(alloc, "BadEscape", file, at),
        LexFault::OpenComment(at) => at_place(alloc, "OpenComment", file, at),
        LexFault::BadNumber(at) => at_place(alloc, "BadNumber", file, at),
        LexFault::OutOfMemory => out_of_memory(alloc),
    }
}

// The parser refuses a file.
fn parse_report(alloc: Global, file: &str, fault: ParseFault) -> Result<Report, OutOfMemory>
    ensures { IfOk result (λ r. r ≡ parse_report file.now fault) }
{
    match fault {
        ParseFault::NotAFile(at) => at_place(alloc, "NotAFile", file, at),
        ParseFault::TooDeep(at) => at_place(alloc, "TooDeep", file, at),
        ParseFault::OutOfMemory => out_of_memory(alloc),
    }
}

// The lexer refuses the file of this name.
fn unread(alloc: Global, file: &Text, fault: LexFault) -> Result<Report, OutOfMemory>
    ensures { IfOk result (λ r. r ≡ lex_report (encode_utf8_all file.now) fault) }
{
    lex_report(alloc, file.as_str(), fault)
}

// The parser refuses the file of this name.
fn unparsed(alloc: Global, file: &Text, fault: ParseFault) -> Result<Report, OutOfMemory>
    ensures { IfOk result (λ r. r ≡ parse_report (encode_utf8_all file.now) fault) }
{
    parse_report(alloc, file.as_str(), fault)
}

/// The report of a program that is not loaded, whose main file has this name.
pub fn load_report(alloc: Global, main: &str, fault: &LoadFault) -> Result<Report, OutOfMemory>
    ensures { IfOk result (λ r. r ≡ load_report main.now fault.now) }
{
    match fault {
        LoadFault::ModuleMissing(file, _) => of_text(alloc, "ModuleMissing", file),
        LoadFault::ModuleCycle(files) => of_names(alloc, "ModuleCycle", files.as_slice()),
        LoadFault::TooManyFiles => refusal_report(alloc, "TooManyFiles", main),
        LoadFault::ReadFault => tree_fault(alloc),
        LoadFault::TooLarge(file) => of_text(alloc, "TooLarge", file),
        LoadFault::NotText(file) => of_text(alloc, "NotText", file),
        LoadFault::Lex(file, fault) => unread(alloc, file, *fault),
        LoadFault::Parse(file, fault) => unparsed(alloc, file, *fault),
        LoadFault::OutOfMemory => out_of_memory(alloc),
    }
}

// The name of the file of a number.
fn file_name(files: &[SourceFile], number: usize) -> &str
    ensures { result.now ≡ file_name files.now number }
{
    match files.get(number) {
        Some(file) => file.name.as_str(),
        None => "",
    }
}

// A refusal with the file of a number, and an offset in it.
fn at_offset(
    alloc: Global,
    code: &str,
    files: &[SourceFile],
    number: usize,
    at: usize,
) -> Result<Report, OutOfMemory>
    ensures { IfOk result (λ r. r ≡ at_place code.now (file_name files.now number) at) }
{
    at_place(alloc, code, file_name(files, number), at)
}

/// The report of what is wrong with a program of these files.
pub fn check_report(
    alloc: Global,
    files: &[SourceFile],
    fault: &CheckFault,
) -> Result<Report, OutOfMemory>
    ensures { IfOk result (λ r. r ≡ check_report files.now fault.now) }
{
    match fault {
        CheckFault::UnknownName(n, at) => at_offset(alloc, "UnknownName", files, *n, *at),
        CheckFault::NameTwice(n, at) => at_offset(alloc, "NameTwice", files, *n, *at),
        CheckFault::WrongType(n, at) => at_offset(alloc, "WrongType", files, *n, *at),
        CheckFault::SymbolCycle(_, names) => of_names(alloc, "SymbolCycle", names.as_slice()),
        CheckFault::BadDecorator(n, at) => at_offset(alloc, "BadDecorator", files, *n, *at),
        CheckFault::BadForPlace(n, at) => at_offset(alloc, "BadForPlace", files, *n, *at),
        CheckFault::MissingModuleParameter(n, at) => {
            at_offset(alloc, "MissingModuleParameter", files, *n, *at)
        }
        CheckFault::ExtraModuleParameter(n, at) => {
            at_offset(alloc, "ExtraModuleParameter", files, *n, *at)
        }
        CheckFault::OutOfMemory => out_of_memory(alloc),
    }
}
