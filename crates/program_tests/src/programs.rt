// Which files a program has, and why one is not loaded.

use crate::answers::loaded;
use std::test::Fail;

#[test]
fn a_file_is_in_a_program_once(rt: HostRuntime) -> Result<(), Fail> {
    let line = loaded(
        rt.alloc(),
        "# main.bicep
module a 'm/a.bicep' = {}
module again './m/../m/a.bicep' = {}
module b 'b.bicep' = {}
# b.bicep
module a 'm/a.bicep' = {}
# m/a.bicep
var x = 1
",
        "./main.bicep",
    )?;
    assert_eq!(rt; line.as_str(), "main.bicep 1 1 2;m/a.bicep;b.bicep 1;");
    Ok(())
}

#[test]
fn a_missing_module_is_refused_with_its_path(rt: HostRuntime) -> Result<(), Fail> {
    let text = "# main.bicep
module a 'a.bicep' = {}
# a.bicep
module b '../b.bicep' = {}
# c.bicep
module n 'no.bicep' = {}
";
    let line = loaded(rt.alloc(), text, "main.bicep")?;
    assert_eq!(rt; line.as_str(), "ModuleMissing a.bicep ../b.bicep");
    let line = loaded(rt.alloc(), text, "c.bicep")?;
    assert_eq!(rt; line.as_str(), "ModuleMissing c.bicep no.bicep");
    let line = loaded(rt.alloc(), text, "d.bicep")?;
    assert_eq!(rt; line.as_str(), "ModuleMissing d.bicep d.bicep");
    Ok(())
}

#[test]
fn files_that_name_each_other_are_a_circle(rt: HostRuntime) -> Result<(), Fail> {
    let text = "# self.bicep
module a 'self.bicep' = {}
# main.bicep
module a 'a.bicep' = {}
# a.bicep
module b 'b.bicep' = {}
# b.bicep
module a './a.bicep' = {}
";
    let line = loaded(rt.alloc(), text, "self.bicep")?;
    assert_eq!(rt; line.as_str(), "ModuleCycle self.bicep");
    let line = loaded(rt.alloc(), text, "main.bicep")?;
    assert_eq!(rt; line.as_str(), "ModuleCycle a.bicep b.bicep");
    Ok(())
}

#[test]
fn a_fault_of_a_file_has_its_name(rt: HostRuntime) -> Result<(), Fail> {
    let text = "# main.bicep
module a 'm/a.bicep' = {}
# m/a.bicep
var a = 'x
# b.bicep
var a = 5 5
";
    let line = loaded(rt.alloc(), text, "main.bicep")?;
    assert_eq!(rt; line.as_str(), "Lex m/a.bicep open text at 8");
    let line = loaded(rt.alloc(), text, "b.bicep")?;
    assert_eq!(rt; line.as_str(), "Parse b.bicep not a file at 10");
    Ok(())
}
