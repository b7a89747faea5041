// What a deployment of a plan comes to. A law has at most other laws in its body: its contract is the law.
ghost use Rattle.plan_outcomes.specs.PlanOutcomes.{HaveHistories, HaveOutcomes, AreAlone};

use history_outcomes::laws::one_outcome;
use history_outputs::laws::outputs_of_outcomes;
use history_plans::laws::plans_have_histories;
use provider_trait::Provider;

/// A plan that nothing refuses is one that histories can be of.
pub fn accepted_plans_have_histories()
    ensures { HaveHistories }
{
    plans_have_histories();
}

/// A deployment of a plan that nothing refuses has an outcome once it has succeeded, and one only. The outputs of its
/// root are those of the outcome.
pub fn one_outcome_of_a_plan<P: Provider>()
    ensures some { HaveOutcomes P.may }
    ensures alone { AreAlone P.may }
{
    accepted_plans_have_histories();
    one_outcome::<P>();
    outputs_of_outcomes::<P>();
}
