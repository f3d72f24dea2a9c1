//! The limit of a serving and the lasting numbers of its faults.

ghost use Rattle.std.specs.Prelude.{◌≡◌, [], ◌∷◌, map, Contains};
ghost use Rattle.ic_pool.specs.declared.fault.PoolFault.{PoolFault};
ghost use Rattle.ic_book.specs.declared.fault.BookFault.{BookFault};
ghost use Rattle.ic_serving.specs.declared.fault.ServeFault.{ServeFault};
ghost use Rattle.ic_serving.specs.declared.limits.TheConstants.{MAX_LINES};
ghost use Rattle.ic_serving.specs.Faults.{all_serve_faults, serve_fault_number};

/// The limit of a serving.
pub fn limits_are()
    ensures { MAX_LINES ≡ 1000000 }
{}

/// The lasting numbers of the faults.
pub fn numbers_are_lasting()
    ensures all { (fault : ServeFault) → (of_book : BookFault) × (of_pool : PoolFault)
        × Contains (all_serve_faults of_book of_pool) fault }
    ensures numbers { (of_book : BookFault) (of_pool : PoolFault)
        → map serve_fault_number (all_serve_faults of_book of_pool)
        ≡ 1 ∷ 2 ∷ 3 ∷ 4 ∷ 5 ∷ 6 ∷ 7 ∷ [] }
{}
