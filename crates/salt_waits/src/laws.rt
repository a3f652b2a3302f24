//! The victim of a list is the one that the definitions of the story name.

ghost use Rattle.law_states.specs.KeptWaits.{AreDistinct};
ghost use Rattle.salt_model.specs.Waiting.{victim_of};
ghost use Rattle.salt_values.specs.declared.id.Id.{Id};
ghost use Rattle.salt_waits.specs.Victims.{IsRightVictim, graph_of};
ghost use Rattle.salt_waits.specs.declared.units.WaitUnit.{WaitUnit};
ghost use Rattle.std.specs.Prelude.{List, Option, map, ◌≡◌};

use law_states::rounds_find_cycles;

/// Of units with different names the right victim is the one of the graph that they are in the story.
pub fn victims_fit()
    ensures { (list : List WaitUnit) (found : Option Id) → AreDistinct (map (λ (u : WaitUnit). u.unit) list) → IsRightVictim list found →
        victim_of (graph_of list) ≡ found }
{
    rounds_find_cycles();
}
