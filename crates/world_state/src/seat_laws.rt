// What a driver's turn makes of the places of a world. The function does nothing: its contract is the law.
ghost use Rattle.std.specs.Prelude.{◌≡◌, [], List};
ghost use Rattle.std.specs.List.{AllPairs};
ghost use Rattle.protocol_runs.specs.Prelude.{changed_from, Place, seats_in, served};
ghost use Rattle.ctl_face.specs.Prelude.{Ctl};
ghost use Rattle.sequencer.specs.Prelude.{Drive, after_drive};
ghost use Rattle.world_state.specs.Seated.{AreApart};
ghost use Rattle.world_state.specs.Prelude.{controllers_in, seated, setups_in};
ghost use Rattle.world_state.specs.declared.seat.SeatAt.{SeatAt};

/// Where the sequencers of seats are moved out of their stores, the driver acts at them, and they are put back, each controller is what a
/// run's turn makes of it. No two seats are at one controller.
pub fn turns_serve_the_places<D>()
    ensures { (seats : List SeatAt) (places : List (Place Ctl)) (d : Drive D)
        → AllPairs AreApart seats
        → seated seats places
        (after_drive (record { seats = seats_in (setups_in seats) (controllers_in places); issued = [] }) d).seats
        ≡ changed_from 0 (λ c x. served (setups_in seats) c d x) places }
{}
