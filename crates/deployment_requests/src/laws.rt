// What holds of plans of templates. A law has no body: its contract is the law.

ghost use Rattle.arm_template.specs.States.{States};
ghost use Rattle.arm_value.specs.Json.{Json};
ghost use Rattle.deploy_histories.specs.Planned.{Planned};
ghost use Rattle.template_tree.specs.Tree.{TemplateTree};
ghost use Rattle.deployment_requests.specs.Requests.{Request, IsPlanOf, IsPlanBy};

use arm_template::stated_once;

/// A plan of what a value states is one of each template that the value states.
pub fn plans_are_of_one_template()
    ensures { (v : Json) (q : Request) (x : Planned) (t : TemplateTree) → States v t → IsPlanBy v q x
        → IsPlanOf q t x }
{
    stated_once();
}
