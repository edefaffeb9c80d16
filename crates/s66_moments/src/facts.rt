//! Facts that all legal orders have that take less than a time, and how one follows from others.
//! A fact is an arc, a pair or a prefix.

ghost use Rattle.std.specs.Prelude.{ℕ, List, ◌∷◌, ◌+◌, ◌≡◌, ◌≢◌, ◌≤◌, ◌<◌, true, map, length};
ghost use Rattle.s66_isa.specs.{Kind, Among, has};
ghost use Rattle.s66_model.specs.{Problem, row_at, total_of, is_remaining};
ghost use Rattle.s66_moments.specs.{Stage, Issue, Free, Moment, Origin, At, End, time_of, soonest, Fact, Arc, Before, Begins, Follows, NoOrder, IsNumber, IsOnlyUnit, Work, AreOnce, Window, IsWithin};
ghost use Rattle.s66_moments.specs.{load_time, Precedes, IsPlacedFirst};

/// What is known follows, and so does all that follows from it. Arcs compose, and may be shortened; what follows of a time follows of
/// each that is less, and if the end comes at the time or later, no order takes less.
pub fn fact_law()
    ensures known { (b : Problem) (low : ℕ) (known : List Fact) (fact : Fact) → Among fact known →
        Follows b low known fact }
    ensures cut { (b : Problem) (low : ℕ) (known : List Fact) (fact other : Fact) →
        Follows b low known fact → Follows b low (fact ∷ known) other → Follows b low known other }
    ensures composed { (b : Problem) (low : ℕ) (known : List Fact) (e f g : Moment) (w v x y : ℕ) →
        Follows b low known (Arc e w f v) →
        Follows b low known (Arc f x g y) → Follows b low known (Arc e (w + x) g (v + y)) }
    ensures shortened { (b : Problem) (low : ℕ) (known : List Fact) (e f : Moment) (w v x y : ℕ) →
        Follows b low known (Arc e w f v) → x + v ≤ w + y → Follows b low known (Arc e x f y) }
    ensures lower { (b : Problem) (low other : ℕ) (known : List Fact) (fact : Fact) →
        other ≤ low → Follows b low known fact → Follows b other known fact }
    ensures too_late { (b : Problem) (low : ℕ) (known : List Fact) → Follows b low known (Arc Origin low End 0) →
        NoOrder b low known }
{}

/// Which of two numbers stands first: by dependence, by a known pair or prefix, by others between, and because no order takes less
/// than low in which the other does. A number stands before itself in no order.
pub fn pair_law()
    ensures precedes { (b : Problem) (low : ℕ) (known : List Fact) (m n : ℕ) → Precedes b known m n →
        Follows b low known (Before m n) }
    ensures transitive { (b : Problem) (low : ℕ) (known : List Fact) (m k n : ℕ) →
        Follows b low known (Before m k) → Follows b low known (Before k n) → Follows b low known (Before m n) }
    ensures ring { (b : Problem) (low : ℕ) (known : List Fact) (n : ℕ) → Follows b low known (Before n n) →
        NoOrder b low known }
    ensures forced { (b : Problem) (low : ℕ) (known : List Fact) (m n : ℕ) → m ≢ n → IsNumber b m → IsNumber b n →
        NoOrder b low (Before n m ∷ known) → Follows b low known (Before m n) }
    ensures forced_by_parcels { (b : Problem) (low : ℕ) (known : List Fact) (m n h t : ℕ) →
        m ≢ n → IsNumber b m → IsNumber b n →
        Follows b low known (Arc Origin h (At n Issue) 0) → Follows b low known (Arc (At m Issue) t End 0) →
        low ≤ h + (row_at b n).parcels + t → Follows b low known (Before m n) }
    ensures forced_by_unit { (b : Problem) (low : ℕ) (known : List Fact) (m n h t : ℕ) →
        m ≢ n → IsNumber b m → IsNumber b n → IsOnlyUnit b n m → Follows b low known (Arc Origin h (At n Free) 0) →
        Follows b low known (Arc (At m Issue) t End 0) → low ≤ h + t → Follows b low known (Before m n) }
{}

/// What a prefix decides: when each moment of what is placed is, that all else comes no sooner than if it came next and stands
/// later, and that the total is no less.
pub fn prefix_law()
    ensures placed { (b : Problem) (low : ℕ) (known : List Fact) (prefix : List ℕ) (n : ℕ) (stage : Stage) →
        Follows b low known (Begins prefix) → has n prefix ≡ true →
        Follows b low known (Arc Origin (time_of b prefix (At n stage)) (At n stage) 0)
        × Follows b low known (Arc (At n stage) 0 Origin (time_of b prefix (At n stage))) }
    ensures soonest { (b : Problem) (low : ℕ) (known : List Fact) (prefix : List ℕ) (n : ℕ) (stage : Stage) →
        Follows b low known (Begins prefix) → is_remaining b.block prefix n ≡ true →
        Follows b low known (Arc Origin (soonest b prefix n stage) (At n stage) 0) }
    ensures later { (b : Problem) (low : ℕ) (known : List Fact) (prefix : List ℕ) (m n : ℕ) →
        Follows b low known (Begins prefix) →
        IsPlacedFirst prefix m n → IsNumber b n → Follows b low known (Before m n) }
    ensures total { (b : Problem) (low : ℕ) (known : List Fact) (prefix : List ℕ) →
        Follows b low known (Begins prefix) → Follows b low known (Arc Origin (total_of b prefix) End 0) }
{}

/// If units of one kind do some works between two moments, the second comes later by the sum of the works over the copies of the
/// kind, rounded up, for any number of copies, and by as many of the least work as there are works over the copies, rounded up. Each
/// instruction counts once, and there is one at least.
pub fn load_arc_law()
    ensures { (b : Problem) (low : ℕ) (known : List Fact) (kind : Kind) (window : Window) (works : List Work) →
        0 < length works → AreOnce (map (λ (u : Work). u.number) works) →
        ((u : Work) → Among u works → IsWithin b low known kind window u) →
        Follows b low known (Arc window.from (window.after + load_time b kind works + window.left) window.to window.less) }
{}
