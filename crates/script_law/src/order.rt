//! Lists, multicalls and scripts: one part behind the other.
ghost use Rattle.std.specs.Prelude.{◌≡◌, ℕ, ◌+◌, List, [], ◌∷◌, ◌++◌, length};
ghost use Rattle.xp_words.specs.declared.ops.Call.{Call};
ghost use Rattle.xp_words.specs.declared.ops.Op.{Op};
ghost use Rattle.foreign_map.specs.declared.owners.Owners.{Owners};
ghost use Rattle.script_law.specs.Elements.{ext_alone, pair_alone};
ghost use Rattle.script_law.specs.Memory.{reserve};
ghost use Rattle.script_law.specs.Order.{IsInOrder};
ghost use Rattle.script_law.specs.Scripts.{and_then, call_alone, called, calls_in_order, ended_by, joined, op_alone, script_alone};
ghost use Rattle.script_law.specs.Values.{Solo, Whose};

/// A list is its elements in order: what is behind some of them goes on from what these leave, and from how many are done; behind a refused one nothing is done. So it is with pairs
/// of `mmu_update`, elements of `mmuext_op`, and extents of `memory_op`. The calls of a multicall are all answered: one that is refused is followed by the next.
pub fn a_list_is_its_elements_in_order()
    ensures pairs { (w : Whose) (o : Owners) → IsInOrder (λ k. pair_alone w o) }
    ensures elements { (w : Whose) → IsInOrder (λ k. ext_alone w) }
    ensures extents { (w : Whose) (size call : ℕ) → IsInOrder (λ k. reserve w size call k) }
    ensures calls { (w : Whose) (cs more : List Call) (k : ℕ) (s : Solo) → calls_in_order w (cs ++ more) k s ≡ and_then (calls_in_order w cs k s) (calls_in_order w more) }
    ensures one_call { (w : Whose) (c : Call) (k : ℕ) (s : Solo) → calls_in_order w (c ∷ []) k s ≡ called (k + 1) (call_alone w (k + 1) c s) }
    ensures all_answered { (w : Whose) (cs : List Call) (k : ℕ) (s : Solo) → (calls_in_order w cs k s).answer.done ≡ k + length cs }
{}

/// A script is its operations in order: what is behind some of them begins with what these leave, and nothing else of them matters. Each has one answer.
pub fn a_script_is_its_operations_in_order()
    ensures parts { (w : Whose) (ops more : List Op) (s : Solo) → script_alone w (ops ++ more) s ≡ joined (script_alone w ops s) (script_alone w more) }
    ensures one { (w : Whose) (op : Op) (s : Solo) → script_alone w (op ∷ []) s ≡ ended_by (op_alone w op s) }
    ensures answers { (w : Whose) (ops : List Op) (s : Solo) → length (script_alone w ops s).log ≡ length ops }
{}
