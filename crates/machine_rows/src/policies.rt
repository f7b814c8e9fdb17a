ghost use Rattle.std.specs.Prelude.{true, false, [], ◌∷◌, codes};
ghost use Rattle.send_rules.specs.declared.policy.Policy.TheVariants.{CacheFirst, CacheOnly, NetworkOnly, CacheAndNetwork};
ghost use Rattle.machine_rows.specs.Values.{null};
ghost use Rattle.machine_rows.specs.Operations.{document_of, me_id, me_id_nick, todos_id};
ghost use Rattle.machine_rows.specs.Meanings.{no_rules};
ghost use Rattle.machine_rows.specs.Dialogs.{Dialog, reply, told, fetch};
ghost use Rattle.machine_rows.specs.Queries as run;
ghost use Rattle.machine_rows.specs.Queries.{then_asked};

/// Cache-first: a hit is told, a partial reading is told and fetched, and a miss is fetched.
pub fn cache_first()
    ensures hit { Dialog no_rules (then_asked CacheFirst (document_of me_id) (reply 2 run.whole ∷ [])) }
    ensures partial { Dialog no_rules (then_asked CacheFirst (document_of me_id_nick) (told 2 run.part true true ∷ fetch 2 me_id_nick ∷ [])) }
    ensures miss { Dialog no_rules (then_asked CacheFirst (document_of todos_id) (fetch 2 todos_id ∷ [])) }
{}

/// Cache-only: whatever is read is told, a miss as null, and nothing is fetched.
pub fn cache_only()
    ensures hit { Dialog no_rules (then_asked CacheOnly (document_of me_id) (reply 2 run.whole ∷ [])) }
    ensures partial { Dialog no_rules (then_asked CacheOnly (document_of me_id_nick) (told 2 run.part true false ∷ [])) }
    ensures miss { Dialog no_rules (then_asked CacheOnly (document_of todos_id) (reply 2 null ∷ [])) }
{}

/// Network-only: everything is fetched, and what the cache has isn't told.
pub fn network_only()
    ensures hit { Dialog no_rules (then_asked NetworkOnly (document_of me_id) (fetch 2 me_id ∷ [])) }
    ensures partial { Dialog no_rules (then_asked NetworkOnly (document_of me_id_nick) (fetch 2 me_id_nick ∷ [])) }
    ensures miss { Dialog no_rules (then_asked NetworkOnly (document_of todos_id) (fetch 2 todos_id ∷ [])) }
{}

/// Cache-and-network: what the cache has is told, as stale, and everything is fetched.
pub fn cache_and_network()
    ensures hit { Dialog no_rules (then_asked CacheAndNetwork (document_of me_id) (told 2 run.whole false true ∷ fetch 2 me_id ∷ [])) }
    ensures partial { Dialog no_rules (then_asked CacheAndNetwork (document_of me_id_nick) (told 2 run.part true true ∷ fetch 2 me_id_nick ∷ [])) }
    ensures miss { Dialog no_rules (then_asked CacheAndNetwork (document_of todos_id) (fetch 2 todos_id ∷ [])) }
{}
