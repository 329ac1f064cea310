ghost use Rattle.std.specs.Prelude.{◌≡◌, [], ◌∷◌, codes};
ghost use Rattle.pb_cli.specs.ServeWords.{StartsAt};

/// Words and the ports at which they start the server, worked by hand.
pub fn worked_words()
    ensures usual { StartsAt (codes "serve" ∷ []) (record { control = 8888; records = 8889 }) }
    ensures given { StartsAt (codes "serve" ∷ codes "--data=9001" ∷ codes "--control" ∷ codes "09000" ∷ []) (record { control = 9000; records = 9001 }) }
{}
