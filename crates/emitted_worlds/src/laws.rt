//! What holds of desired states of programs and of their templates. A law has no body: its contract is the law.
ghost use Rattle.std.specs.Prelude.{List, Option};
ghost use Rattle.arm_value.specs.Json.{Json};
ghost use Rattle.arm_ids.specs.Held.{HeldResource};
ghost use Rattle.arm_ids.specs.declared.id.ResourceId.{ResourceId};
ghost use Rattle.template_parts.specs.declared.mode.Form.{Form};
ghost use Rattle.deploy_cells.specs.Cells.{World};
ghost use Rattle.plan_cells.specs.Desired as template;
ghost use Rattle.plan_cells.specs.Meaning.{Deployment};
ghost use Rattle.bicep_meaning.specs.Instances as source;
ghost use Rattle.bicep_meaning.specs.Instances.{SourceProgram};
ghost use Rattle.cell_renaming.specs.Renaming.{IsRenamable};
ghost use Rattle.cell_renaming.specs.Renamed.{IsEither};
ghost use Rattle.source_worlds.specs.Numbers.{numbering};
ghost use Rattle.emitted_files.specs.Files.{IsEmitted};
ghost use Rattle.emitted_worlds.specs.Facts.{HasOwnTypes, HoldsResources, HasFacts};

/// The facts hold of each world that is desired of a program or, renamed, of its template.
pub fn desired_worlds_have_facts()
    ensures { (z : Form) (d : SourceProgram) (t : Deployment) (opening : ResourceId → Option Json)
        (held : List HeldResource) → IsEmitted z d.files t.template → HasOwnTypes d → HoldsResources opening
        → HoldsResources (template.held_state held) → (w : World) → IsRenamable (numbering z d.files) w
        → IsEither (numbering z d.files) (source.desired d opening) (template.desired t held) w → HasFacts z d w }
{}
