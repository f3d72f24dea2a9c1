//! Laws of the definitions that the contracts of this crate cite.

ghost use Rattle.std.specs.Prelude.{◌≡◌, ◌↔◌, ◌≤◌, ◌==◌, ◌++◌, ℕ, List, [], ◌∷◌, true, false, Some, if◌then◌else◌};
ghost use Rattle.std.specs.List.{list_all};
ghost use Rattle.ic_term.specs.Configuration.{Configuration, IsConfiguration, configuration_names, occurrences};
ghost use Rattle.ic_term.specs.Tree.{agent, name};
ghost use Rattle.ic_rules.specs.Rule.{Rule};
ghost use Rattle.ic_settle.specs.Settling.{settled};
ghost use Rattle.ic_confluence.specs.Circle.{cut_at_x, cut_at_y, of_equations, uncut};
ghost use Rattle.ic_confluence.specs.Sameness.{Rearranges, Renames, Same};
ghost use Rattle.ic_text.specs.Token.{is_blank};
ghost use Rattle.ic_nets.specs.Likeness.{alone, church_false, church_true, AreAlike, ends, is_bound, ports_at, ports_of, times, wire_named};
ghost use Rattle.ic_nets.specs.Draws.{has_rules};
ghost use Rattle.ic_nets.specs.Nets.{IsNet, named_wires};
ghost use Rattle.ic_nets.specs.declared.links.Standing.{Standing};
ghost use Rattle.ic_nets.specs.declared.net.Net.{Net};
ghost use Rattle.ic_nets.specs.declared.port.Port.{Port};
ghost use Rattle.ic_nets.specs.declared.port.Port.TheVariants.{Free};

/// Each end of a wire is at a port, and each port is an end as often as it is one: the ends of wires are the bound ports
/// of the net, and a free one for each name that stands once.
pub fn wires_end_at_ports()
    ensures bound { (rs : List Rule) (c : Configuration) (net : Net) (p : Port)
        → IsConfiguration c → IsNet rs c net → is_bound p ≡ true
        → times p (ends net.wires.items) ≡ times p (ports_of net) }
    ensures free { (rs : List Rule) (c : Configuration) (net : Net) (n : ℕ)
        → IsConfiguration c → IsNet rs c net → times (Free n) (ends net.wires.items)
        ≡ if occurrences n (configuration_names c) == 1 then 1 else 0 }
{}

/// No port of a net is listed twice. So each bound port is an end of exactly one wire.
pub fn ports_are_listed_once()
    ensures { (net : Net) (p : Port) → times p (ports_of net) ≤ 1 }
{}

/// A name that stands at two ports is the wire between them, and one that stands once a wire with a free end.
pub fn names_are_wires()
    ensures twice { (ss : List Standing) (n : ℕ) (p q : Port) → ports_at n ss ≡ p ∷ q ∷ []
        → wire_named n (named_wires ss) ≡ Some (record { from = p; to = q; active = false }) }
    ensures once { (ss : List Standing) (n : ℕ) (p : Port) → ports_at n ss ≡ p ∷ []
        → wire_named n (named_wires ss)
        ≡ Some (record { from = p; to = Free n; active = false }) }
{}

/// A net has no names but free ones: where names are turned into others one-to-one, and free ones stay, the net stays as it
/// is, to the order of its wires.
pub fn names_are_forgotten()
    ensures { (rs : List Rule) (c d : Configuration) (net : Net)
        → IsConfiguration c → Renames c d → IsNet rs c net → IsNet rs d net }
{}

/// Nets that are one graph are of configurations that settle to one net: which number an agent has, and which wire and which of
/// its ends is named first, says nothing. So configurations with one net settle to one net. The nets of `<|x=A(y),y=B(x)>`,
/// `<|y=B(A(y))>` and `<|x=A(B(x))>` are one graph.
pub fn alike_nets_settle_to_one()
    ensures one { (rs : List Rule) (c d : Configuration) (net : Net)
        → IsConfiguration c → IsConfiguration d → IsNet rs c net → IsNet rs d net
        → (next : ℕ) × Same (settled (record c { next = next })) (settled (record d { next = next })) }
    ensures settled { (rs : List Rule) (c d : Configuration) (m n : Net) → IsConfiguration c
        → IsConfiguration d → IsNet rs c m → IsNet rs d n → AreAlike m n
        → (next : ℕ) × Same (settled (record c { next = next })) (settled (record d { next = next })) }
    ensures circle { (rs : List Rule) (a b : ℕ) (m n : Net) → IsNet rs (uncut a b) m
        → IsNet rs (of_equations (cut_at_y a b ∷ [])) n → AreAlike m n }
    ensures cut { (rs : List Rule) (a b : ℕ) (m n : Net)
        → IsNet rs (of_equations (cut_at_y a b ∷ [])) m
        → IsNet rs (of_equations (cut_at_x a b ∷ [])) n → AreAlike m n }
{
    ic_confluence::laws::same_is_an_equivalence();
    ic_confluence::laws::same_nets_take_the_same_name_steps();
    ic_confluence::laws::same_nets_have_the_same_rounds();
    ic_confluence::laws::every_order_settles_to_the_same_net();
}

/// Configurations are one net only where the names of one can be turned into others, and its equations rearranged then, so that
/// it is the other one. Without equations it has to be the other one once its names are turned into others. So
/// `<L(x,L(E,x))|>` and `<L(E,L(x,x))|>`, Church's true and false, are two nets.
pub fn same_nets_are_renamed_and_rearranged()
    ensures parts { (c d : Configuration) → Same c d
        → (between : Configuration) × Renames c between × Rearranges between d }
    ensures renamed { (c d : Configuration) → Same c d → c.equations ≡ [] → Renames c d }
    ensures true_and_false { (l e : ℕ)
        → ¬ Same (alone (church_true l e)) (alone (church_false l e)) }
{
    ic_confluence::laws::same_nets_have_one_shape();
}

/// Configurations that are one net have nets that are one graph. So those whose nets differ in a wire are two nets. Of settled
/// configurations the nets are one graph exactly where, with some `next` for both, they are one net.
pub fn same_nets_are_alike()
    ensures same { (rs : List Rule) (c d : Configuration) (m n : Net)
        → ((x : ℕ) → occurrences x (configuration_names c) ≤ 2)
        → Same c d → IsNet rs c m → IsNet rs d n → AreAlike m n }
    ensures settled { (rs : List Rule) (c d : Configuration) (m n : Net) → IsConfiguration c
        → IsConfiguration d → settled c ≡ c → settled d ≡ d → IsNet rs c m → IsNet rs d n
        → AreAlike m n
        ↔ ((next : ℕ) × Same (record c { next = next }) (record d { next = next })) }
{
    same_nets_are_renamed_and_rearranged();
    alike_nets_settle_to_one();
}

/// A text has rules exactly where its first byte that isn't blank is `{`.
pub fn texts_with_rules_begin_with_a_brace()
    ensures brace { (blanks rest : List ℕ) → list_all is_blank blanks ≡ true
        → has_rules (blanks ++ 123 ∷ rest) ≡ true }
    ensures other { (blanks : List ℕ) (b : ℕ) (rest : List ℕ) → list_all is_blank blanks ≡ true
        → is_blank b ≡ false → ¬ (b ≡ 123) → has_rules (blanks ++ b ∷ rest) ≡ false }
    ensures blank { (blanks : List ℕ) → list_all is_blank blanks ≡ true
        → has_rules blanks ≡ false }
{}
