//! Laws and examples of accounts: what a history holds of each worker, and what a worker's seat keeps of a ledger.

ghost use Rattle.std.specs.Prelude.{ℕ, List, ◌≡◌, ◌≢◌, ◌≤◌, [], ◌∷◌, ◌++◌, length, true, false, Some, None};
ghost use Rattle.s66_isa.specs.{weigh};
ghost use Rattle.s66_model.specs.{Rule, NoneNamed, Problem, Ledger, Event, Reply, Step, Run, worker, Open, Out, Graft, Offer, Back, Claimed, Taken, NotOut, Lower, NotLower, OtherBlock, opening};
ghost use Rattle.s66_model.specs.{Claims, Grafts, Offers, GivesBack, brief, account_of, counted, no_account, Summary, summary_of, SeatRecord, Agrees, opened, after_event, after_reading, load_problem};
ghost use Rattle.s66_model.specs.{multiply_problem, ledger_events, root_split};

/// An entry more counts for its worker alone; no worker has more entries than there are; and the splits of all accounts add up to
/// what is spent.
pub fn account_law()
    ensures own { (history : List (Event × Reply)) (event : Event) (reply : Reply) →
        account_of (history ++ (event, reply) ∷ []) (worker event) ≡
        counted (account_of history (worker event)) event reply }
    ensures other { (history : List (Event × Reply)) (event : Event) (reply : Reply) (w : ℕ) → worker event ≢ w →
        account_of (history ++ (event, reply) ∷ []) w ≡ account_of history w }
    ensures few { (history : List (Event × Reply)) (w : ℕ) → (account_of history w).events ≤ length history }
    ensures splits { (rule : Rule) (b : Problem) (budget workers : ℕ) (history : List (Event × Reply)) (l : Ledger) →
        Run rule b (opening b budget workers) history l →
        weigh (λ account. account.splits) (summary_of rule b budget workers history l).accounts ≡ l.spent }
{}

/// A seat agrees with the ledger as it opens, and goes on to: after each event of its worker, after those of others, and after
/// it read the best time.
pub fn seat_record_law()
    ensures opened { (rule : Rule) (b : Problem) (budget workers : ℕ) (history : List (Event × Reply)) (l : Ledger)
        (w : ℕ) → 1 ≤ w → w ≤ workers →
        Agrees (summary_of rule b budget workers history l) (opened (summary_of rule b budget workers history l) w) }
    ensures own { (rule : Rule) (b : Problem) (budget workers : ℕ) (history : List (Event × Reply)) (old new : Ledger)
        (event : Event) (reply : Reply) (p : SeatRecord) → Step rule b old event reply new →
        Agrees (summary_of rule b budget workers history old) p → worker event ≡ p.who →
        Agrees (summary_of rule b budget workers (history ++ (event, reply) ∷ []) new) (after_event p event reply) }
    ensures other { (rule : Rule) (b : Problem) (budget workers : ℕ) (history : List (Event × Reply)) (old new : Ledger)
        (event : Event) (reply : Reply) (p : SeatRecord) → Step rule b old event reply new →
        Agrees (summary_of rule b budget workers history old) p → worker event ≢ p.who →
        Agrees (summary_of rule b budget workers (history ++ (event, reply) ∷ []) new) p }
    ensures read { (s : Summary) (p : SeatRecord) → Agrees s p → Agrees s (after_reading p s.best) }
{}

/// What a history holds of each worker, and what a seat keeps.
pub fn account_examples()
    ensures of_worker_1 { account_of ledger_events 1 ≡
        record { events = 4; last = Some (Grafts 0 1, NotOut); splits = 1 } }
    ensures of_worker_2 { account_of ledger_events 2 ≡
        record { events = 3; last = Some (Claims, Claimed (Some 2)); splits = 0 } }
    ensures of_no_worker { account_of ledger_events 3 ≡ no_account }
    ensures at_the_opening { account_of [] 1 ≡ no_account }
    ensures graft_counted { counted no_account (Graft 1 0 true [] 3 None) Taken ≡
        record { events = 1; last = Some (Grafts 0 3, Taken); splits = 3 } }
    ensures refused_graft_counted { counted no_account (Graft 1 0 true [] 3 None) NotOut ≡
        record { events = 1; last = Some (Grafts 0 3, NotOut); splits = 0 } }
    ensures briefs { brief (Back 1 5) ≡ GivesBack 5 }
    ensures brief_offer { brief (Offer 2 true (1 ∷ 3 ∷ 2 ∷ []) 12) ≡ Offers 12 }
    ensures summary { summary_of NoneNamed multiply_problem 10 2 ledger_events (root_split Open Out Open) ≡
        record { rule = NoneNamed; problem = multiply_problem; budget = 10; best = 22; accounts = account_of ledger_events 1 ∷ account_of ledger_events 2 ∷ [] } }
    ensures opening_summary { summary_of NoneNamed load_problem 10 2 [] (opening load_problem 10 2) ≡
        record { rule = NoneNamed; problem = load_problem; budget = 10; best = 16; accounts = no_account ∷ no_account ∷ [] } }
    ensures seat_opens { opened (summary_of NoneNamed load_problem 10 2 [] (opening load_problem 10 2)) 2 ≡
        record { who = 2; rule = NoneNamed; problem = load_problem; budget = 10; account = no_account; least = 16 } }
    ensures lower_offer { (after_event (opened (summary_of NoneNamed load_problem 10 2 [] (opening load_problem 10 2))
        2) (Offer 2 true (1 ∷ 3 ∷ 2 ∷ []) 12) Lower).least ≡ 12 }
    ensures answered { (after_event (opened (summary_of NoneNamed load_problem 10 2 [] (opening load_problem 10 2)) 2)
        (Offer 2 true (1 ∷ 2 ∷ 3 ∷ []) 16) (NotLower 12)).least ≡ 12 }
    ensures of_another_block { (after_event (opened (summary_of NoneNamed load_problem 10
        2 [] (opening load_problem 10 2)) 2) (Offer 2 false (1 ∷ []) 4) OtherBlock).least ≡ 16 }
    ensures read { (after_reading (opened (summary_of NoneNamed load_problem 10 2 [] (opening load_problem 10 2)) 1)
        12).least ≡ 12 }
    ensures agrees { Agrees (summary_of NoneNamed multiply_problem 10 2 ledger_events (root_split Open Out Open))
        (record { who = 2; rule = NoneNamed; problem = multiply_problem; budget = 10; account = account_of ledger_events 2; least = 22 }) }
    ensures another_account { ¬ Agrees (summary_of NoneNamed multiply_problem 10 2 ledger_events
        (root_split Open Out Open))
        (record { who = 2; rule = NoneNamed; problem = multiply_problem; budget = 10; account = account_of ledger_events 1; least = 22 }) }
    ensures below_the_best { ¬ Agrees (summary_of NoneNamed multiply_problem 10 2 ledger_events
        (root_split Open Out Open))
        (record { who = 2; rule = NoneNamed; problem = multiply_problem; budget = 10; account = account_of ledger_events 2; least = 21 }) }
    ensures another_budget { ¬ Agrees (summary_of NoneNamed multiply_problem 10 2 ledger_events
        (root_split Open Out Open))
        (record { who = 2; rule = NoneNamed; problem = multiply_problem; budget = 9; account = account_of ledger_events 2; least = 22 }) }
    ensures another_problem { ¬ Agrees (summary_of NoneNamed multiply_problem 10 2 ledger_events
        (root_split Open Out Open))
        (record { who = 2; rule = NoneNamed; problem = load_problem; budget = 10; account = account_of ledger_events 2; least = 22 }) }
    ensures no_worker { ¬ Agrees (summary_of NoneNamed multiply_problem 10 2 ledger_events (root_split Open Out Open))
        (record { who = 3; rule = NoneNamed; problem = multiply_problem; budget = 10; account = no_account; least = 22 }) }
{}
