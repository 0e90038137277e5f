//! What holds of every schedule of the wake machine, whose steps are those of `calloop_wake`'s contracts: laws, possible
//! schedules, and wrong ones that the laws rule out. Nothing of `calloop_wake` depends on them.
#![tactic(auto)]

ghost use Rattle.std.specs.Prelude.{◌≡◌, ◌+◌, ◌&&◌, nat_lt, ℕ, List, Bool, true, false, None, Some, if◌then◌else◌};
ghost use Rattle.calloop_wake.specs.Cells.{Cell, fresh, one, opens, debt_of, owed_at, after_ring, after_close, after_set_key, after_clear_key, after_open_turn, after_end_turn};
ghost use Rattle.calloop_wake.specs.Boards.{is_marked, any_marked, wakes, after_open_place, after_close_place, after_post, after_unpost};
ghost use Rattle.calloop_wake.specs.Bells.{after_ping, owed_if};
ghost use Rattle.calloop_wake.specs.Channels.{after_put, after_pop, after_take, with_bell, is_early};
ghost use Rattle.calloop_wake.specs.Channels.{after_open_turn as channel_after_open_turn, after_end_turn as channel_after_end_turn};
ghost use Rattle.calloop_wake.specs.Executors.{debt_between as owed_by_step, after_open_turn as executor_after_open_turn};
ghost use Rattle.calloop_wake.specs.Executors.{after_set_key as executor_after_set_key, after_clear_key as executor_after_clear_key};
ghost use Rattle.calloop_wake_laws.specs.ExecutorKind as executor;
ghost use Rattle.calloop_wake_laws.specs.ExecutorKind.{ExecutorPast, executor_kind};
ghost use Rattle.calloop_wake_laws.specs.Wakes.{WakeWorld, WakeStep, At, SetKey, ClearKey, OpenTurn, OpenPlace, ClosePlace, Post, Look, Unpost, Awake, Looked, and_one, start, after, after_all, less_one, with_cell, owed_by, IsSchedule, IsCovered};
ghost use Rattle.calloop_wake_laws.specs.PingKind.{ping_kind, Ring, Close, EndTurn};
ghost use Rattle.calloop_wake_laws.specs.ChannelKind as channel;
ghost use Rattle.calloop_wake_laws.specs.ChannelKind.{ChannelPast, channel_kind};
ghost use Rattle.calloop_wake_laws.specs.Kinds.{First, Second, every_kind, Born, new_cell};
ghost use Rattle.calloop_wake_laws.specs.Delivery.{CanBeDelivered};
ghost use Rattle.calloop_wake_laws.specs.StepsOfCores.{with_key_7, with_place_9_opened, with_step, with_permit, with_place_taken};
ghost use Rattle.calloop_wake_laws.specs.Lost.{of_pings, of_channels, with_a_ring_unseen, with_a_close_unseen, with_a_key_forgotten, with_nobody_told, with_nobody_told_in_a_wait, with_a_sleeper_left_alone, with_a_message_unseen, with_a_message_lost, with_messages_out_of_order, with_a_close_told_twice, with_a_close_told_early, with_a_close_told_of_an_open_channel, with_a_message_too_many, with_too_long_a_turn, of_executors, with_a_task_unseen, with_a_task_queued_twice, with_a_finished_task_queued, with_a_result_twice, with_a_result_of_a_task_that_runs, with_a_woken_task_unseen, with_a_task_polled_by_nobody, with_a_number_twice, with_the_next_number};
ghost use Rattle.calloop_wake_laws.specs.Lost.{with_a_ring_unseen_in_the_second_cell, with_the_second_key_forgotten, with_nobody_told_of_the_second_key, with_a_close_told_before_it_came, with_another_key, with_an_endless_turn};
ghost use Rattle.calloop_wake_laws.specs.ExampleSchedules.{ring_in_a_wait, post_between_look_and_sleep, ring_in_a_turn, close_in_a_turn, pass_that_goes_back, key_that_moves, key_that_is_cleared, drop_in_a_turn, wait_without_a_sleep, message_in_a_turn, close_behind_a_message, of_key_seven, of_key_nine, after_message_in_a_turn, after_close_behind_a_message, task_in_a_turn, wake_in_a_wait, executor_that_goes, after_task_in_a_turn};
ghost use Rattle.calloop_wake_laws.specs.ExampleSchedules.{of_bounded_channels, channel_that_is_rung, close_in_a_channels_turn, close_behind_the_last_pop, message_outside_of_a_turn, bounded_channel, message_behind_the_close, channel_that_moves, executor_that_moves, second_task_in_a_slot, turn_of_1024_pops, turn_of_1024_polls};
ghost use Rattle.calloop_wake_laws.specs.ExampleSchedules.{after_channel_that_is_rung, after_close_in_a_channels_turn, after_message_outside_of_a_turn, after_bounded_channel, after_message_behind_the_close, after_second_task_in_a_slot};
ghost use Rattle.calloop_wake_laws.specs.ExampleSchedules.{of_both, two_turns_at_once, unpost_in_part, unpost_in_a_wait, key_without_a_place, life_past_a_look, life_in_a_wait, life_of_the_third_cell};
ghost use Rattle.calloop_wake_laws.specs.ExampleSchedules.{turn_that_stops, turn_without_a_pop, pop_too_many, close_twice, take_of_nothing, pop_without_a_turn, put_past_the_bound, turn_that_stops_behind_a_task};

/// Over every schedule of the wake machine, by any number of cells of pings, channels and executors, from the state in which
/// nothing has happened: what mustn't be lost, a ring, a message, a close that no turn told or a wake, is pinged or a turn is
/// open; a pinged cell's key is posted, owed or held as a pass; if the loop has looked and found no mark, it is told of a posted
/// key by a wakeup that is owed or by the signal. And a channel's messages are handed out in the order in which they were put,
/// its close is told at most once, and only when it is closed and empty; its turn pops as often as it may, and ends when its last
/// pop found no message, or when it may pop no more. And each task of an executor is idle, queued once, in a poll, or finished;
/// its result is handed out at most once, and then it is in no queue.
pub fn nothing_is_lost()
    ensures { (born : ℕ → Born) (steps : List (WakeStep every_kind.Own))
        → IsSchedule every_kind (start (λ n. new_cell (born n))) steps
        → IsCovered every_kind (after_all every_kind (start (λ n. new_cell (born n))) steps) }
{}

/// From the end of every schedule, each cell that is pinged under a key can get its turn: there are steps of those who owe
/// something, at most three if no turn of it is open, each with its needs met, after which the loop is awake or its wait is told,
/// and then the loop's own three open a turn. So nothing is beyond reach: no step has to be made that isn't owed. The law doesn't
/// say that these steps come.
pub fn can_be_delivered()
    ensures { (born : ℕ → Born) (steps : List (WakeStep every_kind.Own))
        → IsSchedule every_kind (start (λ n. new_cell (born n))) steps → (n k : ℕ)
        → every_kind.pinged ((after_all every_kind (start (λ m. new_cell (born m))) steps).cells n)
        ≡ true
        → every_kind.key ((after_all every_kind (start (λ m. new_cell (born m))) steps).cells n)
        ≡ Some k
        → CanBeDelivered every_kind
        (after_all every_kind (start (λ m. new_cell (born m))) steps) n k }
{}

/// Small states from which no cell can be delivered: a key that is nowhere, a loop that sleeps and that nobody tells of a posted
/// key, and a cell that has another key. And one from which it takes more steps than allowed: a turn that ends after 1,028 pops.
pub fn out_of_reach()
    ensures key { ¬ CanBeDelivered every_kind with_a_key_forgotten 0 7 }
    ensures sleeper { ¬ CanBeDelivered every_kind with_a_sleeper_left_alone 0 7 }
    ensures other_key { ¬ CanBeDelivered every_kind with_another_key 0 7 }
    ensures endless { ¬ CanBeDelivered every_kind with_an_endless_turn 0 7 }
{}

/// Small states that `nothing_is_lost` rules out: a ring, a close or a message that no mark shows, a pinged cell whose key is
/// nowhere, a posted key of which nobody tells a loop past its look, a message that is lost or handed out of order, a close that
/// is told twice, before the last message, or of an open channel; a message past the bound, and a turn that may pop past it; a
/// task that no mark shows, which is queued or was woken in its poll, one that is queued twice or though it is finished, or in a
/// poll of nobody, or has another's number, or that of the next one, and a result that was handed out twice or of a task that
/// still runs. And errors in the second cell alone, or under a second key: a ring, a pinged cell's key, and one of which nobody
/// tells the loop; and a close that was told of a channel before it was closed.
pub fn lost_is_not_covered()
    ensures ring { ¬ IsCovered every_kind with_a_ring_unseen }
    ensures close { ¬ IsCovered every_kind with_a_close_unseen }
    ensures key { ¬ IsCovered every_kind with_a_key_forgotten }
    ensures sleeper { ¬ IsCovered every_kind with_nobody_told }
    ensures sleeper_in_its_wait { ¬ IsCovered every_kind with_nobody_told_in_a_wait }
    ensures message { ¬ IsCovered every_kind with_a_message_unseen }
    ensures lost { ¬ IsCovered every_kind with_a_message_lost }
    ensures order { ¬ IsCovered every_kind with_messages_out_of_order }
    ensures twice { ¬ IsCovered every_kind with_a_close_told_twice }
    ensures early { ¬ IsCovered every_kind with_a_close_told_early }
    ensures open { ¬ IsCovered every_kind with_a_close_told_of_an_open_channel }
    ensures bound { ¬ IsCovered every_kind with_a_message_too_many }
    ensures pops { ¬ IsCovered every_kind with_too_long_a_turn }
    ensures task { ¬ IsCovered every_kind with_a_task_unseen }
    ensures queued { ¬ IsCovered every_kind with_a_task_queued_twice }
    ensures finished { ¬ IsCovered every_kind with_a_finished_task_queued }
    ensures result { ¬ IsCovered every_kind with_a_result_twice }
    ensures running { ¬ IsCovered every_kind with_a_result_of_a_task_that_runs }
    ensures woken { ¬ IsCovered every_kind with_a_woken_task_unseen }
    ensures polled { ¬ IsCovered every_kind with_a_task_polled_by_nobody }
    ensures number { ¬ IsCovered every_kind with_a_number_twice }
    ensures next_number { ¬ IsCovered every_kind with_the_next_number }
    ensures second_ring { ¬ IsCovered every_kind with_a_ring_unseen_in_the_second_cell }
    ensures second_key { ¬ IsCovered every_kind with_the_second_key_forgotten }
    ensures sleeper_beside { ¬ IsCovered every_kind with_nobody_told_of_the_second_key }
    ensures before_it_came { ¬ IsCovered every_kind with_a_close_told_before_it_came }
{}

/// Possible schedules, with each kind of step at the moments that matter, and the cell that each leaves.
pub fn schedules_that_there_are()
    ensures wait { IsSchedule every_kind of_pings ring_in_a_wait }
    ensures waited { (after_all every_kind of_pings ring_in_a_wait).cells 0
        ≡ First (record of_key_seven { draining = true }) }
    ensures look { IsSchedule every_kind of_pings post_between_look_and_sleep }
    ensures looked { (after_all every_kind of_pings post_between_look_and_sleep).cells 0
        ≡ First of_key_seven }
    ensures turn { IsSchedule every_kind of_pings ring_in_a_turn }
    ensures turned { (after_all every_kind of_pings ring_in_a_turn).cells 0
        ≡ First (record of_key_seven { rung = true; pinged = true }) }
    ensures close { IsSchedule every_kind of_pings close_in_a_turn }
    ensures closed { (after_all every_kind of_pings close_in_a_turn).cells 0
        ≡ First (record of_key_seven { closed = true; told = true; draining = true }) }
    ensures back { IsSchedule every_kind of_pings pass_that_goes_back }
    ensures gone_back { (after_all every_kind of_pings pass_that_goes_back).cells 0
        ≡ First (record of_key_seven { rung = true; pinged = true }) }
    ensures moves { IsSchedule every_kind of_pings key_that_moves }
    ensures moved { (after_all every_kind of_pings key_that_moves).cells 0
        ≡ First (record of_key_nine { draining = true }) }
    ensures clear { IsSchedule every_kind of_pings key_that_is_cleared }
    ensures cleared { (after_all every_kind of_pings key_that_is_cleared).cells 0
        ≡ First (record of_key_nine { draining = true }) }
    ensures drop { IsSchedule every_kind of_pings drop_in_a_turn }
    ensures dropped { (after_all every_kind of_pings drop_in_a_turn).cells 0
        ≡ First (record fresh { gone = true }) }
    ensures sleepless { IsSchedule every_kind of_pings wait_without_a_sleep }
    ensures message { IsSchedule every_kind of_channels message_in_a_turn }
    ensures handed_out { (after_all every_kind of_channels message_in_a_turn).cells 0
        ≡ Second (First after_message_in_a_turn) }
    ensures behind { IsSchedule every_kind of_channels close_behind_a_message }
    ensures told { (after_all every_kind of_channels close_behind_a_message).cells 0
        ≡ Second (First after_close_behind_a_message) }
    ensures task { IsSchedule every_kind of_executors task_in_a_turn }
    ensures polled { (after_all every_kind of_executors task_in_a_turn).cells 0
        ≡ Second (Second after_task_in_a_turn) }
    ensures wake { IsSchedule every_kind of_executors wake_in_a_wait }
    ensures goes { IsSchedule every_kind of_executors executor_that_goes }
{}

/// Possible schedules of channels and of executors, and the cell that most of them leave.
pub fn schedules_of_queues_that_there_are()
    ensures rung { IsSchedule every_kind of_channels channel_that_is_rung }
    ensures was_rung { (after_all every_kind of_channels channel_that_is_rung).cells 0
        ≡ Second (First after_channel_that_is_rung) }
    ensures close { IsSchedule every_kind of_channels close_in_a_channels_turn }
    ensures closed { (after_all every_kind of_channels close_in_a_channels_turn).cells 0
        ≡ Second (First after_close_in_a_channels_turn) }
    ensures late_close { IsSchedule every_kind of_channels close_behind_the_last_pop }
    ensures outside { IsSchedule every_kind of_channels message_outside_of_a_turn }
    ensures received { (after_all every_kind of_channels message_outside_of_a_turn).cells 0
        ≡ Second (First after_message_outside_of_a_turn) }
    ensures bounded { IsSchedule every_kind of_bounded_channels bounded_channel }
    ensures full { (after_all every_kind of_bounded_channels bounded_channel).cells 0
        ≡ Second (First after_bounded_channel) }
    ensures behind { IsSchedule every_kind of_channels message_behind_the_close }
    ensures told { (after_all every_kind of_channels message_behind_the_close).cells 0
        ≡ Second (First after_message_behind_the_close) }
    ensures moves { IsSchedule every_kind of_channels channel_that_moves }
    ensures executor_moves { IsSchedule every_kind of_executors executor_that_moves }
    ensures second_task { IsSchedule every_kind of_executors second_task_in_a_slot }
    ensures polled { (after_all every_kind of_executors second_task_in_a_slot).cells 0
        ≡ Second (Second after_second_task_in_a_slot) }
{}

/// Schedules of a ping and a channel on one board, and of a key that moves or is taken while the loop waits; and the whole life
/// of a ping under a key, while the loop is past its look, in its wait, and of a third cell under the greatest key.
pub fn schedules_of_one_board_that_there_are()
    ensures turns { IsSchedule every_kind of_both two_turns_at_once }
    ensures in_part { IsSchedule every_kind of_both unpost_in_part }
    ensures in_a_wait { IsSchedule every_kind of_pings unpost_in_a_wait }
    ensures no_place { IsSchedule every_kind of_pings key_without_a_place }
    ensures past_a_look { IsSchedule every_kind of_pings life_past_a_look }
    ensures life_in_a_wait { IsSchedule every_kind of_pings life_in_a_wait }
    ensures lived { (after_all every_kind of_pings life_in_a_wait).cells 0
        ≡ First (record fresh { gone = true }) }
    ensures third_cell { IsSchedule every_kind of_pings life_of_the_third_cell }
{}

/// Turns that end because they may pop no more, of a channel without a bound and of an executor.
pub fn turns_that_end_at_their_bound()
    ensures pops { IsSchedule every_kind of_channels turn_of_1024_pops }
    ensures polls { IsSchedule every_kind of_executors turn_of_1024_polls }
{}

/// Impossible schedules: a turn that ends after a message, a task, or no pop, when it may pop more; a pop more than a turn may
/// make, or without a turn; a call that receives when there is no message; a close that comes twice; a message past the bound.
pub fn schedules_that_there_are_not()
    ensures stops { ¬ IsSchedule every_kind of_channels turn_that_stops }
    ensures no_pop { ¬ IsSchedule every_kind of_channels turn_without_a_pop }
    ensures too_many { ¬ IsSchedule every_kind of_bounded_channels pop_too_many }
    ensures twice { ¬ IsSchedule every_kind of_channels close_twice }
    ensures nothing { ¬ IsSchedule every_kind of_channels take_of_nothing }
    ensures no_turn { ¬ IsSchedule every_kind of_channels pop_without_a_turn }
    ensures bound { ¬ IsSchedule every_kind of_bounded_channels put_past_the_bound }
    ensures task { ¬ IsSchedule every_kind of_executors turn_that_stops_behind_a_task }
{}

/// Wrong steps, each at its own core's step: a ring that changes the next cell, or owes nothing though the cell has a key and was
/// not pinged; a key that goes and returns no close permit; and a key that is set whose place still counts as opened.
pub fn steps_that_are_not_the_machines()
    ensures other_cell { ¬ (after ping_kind with_key_7 (At 0 Ring)
        ≡ with_step 1 (after_ring (with_key_7.cells 1)) (debt_of (with_key_7.cells 1)) with_key_7) }
    ensures no_debt { ¬ (after ping_kind with_key_7 (At 0 Ring)
        ≡ with_step 0 (after_ring (with_key_7.cells 0)) None with_key_7) }
    ensures no_permit { ¬ (after ping_kind with_key_7 (ClearKey 0 false)
        ≡ with_step 0 (after_clear_key false (with_key_7.cells 0)) None with_key_7) }
    ensures place_stays { ¬ (after ping_kind with_place_9_opened (SetKey 0 9)
        ≡ with_permit (Some 7) (with_step 0 (after_set_key 9 (with_place_9_opened.cells 0)) None
        with_place_9_opened)) }
{}

/// A step of a ping's, channel's or executor's core returns what the machine's step does: the cell after it, the debt, the close
/// permit. And so does a step of the board: its places after it, a post's wakeup, a look's permit to sleep, the passes taken.
pub fn steps_are_the_machines()
    ensures ring { (w : WakeWorld Cell) (n : ℕ) → after ping_kind w (At n Ring)
        ≡ with_step n (after_ring (w.cells n)) (debt_of (w.cells n)) w }
    ensures close { (w : WakeWorld Cell) (n : ℕ) → after ping_kind w (At n Close)
        ≡ with_step n (after_close (w.cells n)) (debt_of (w.cells n)) w }
    ensures end_turn { (w : WakeWorld Cell) (n : ℕ) → after ping_kind w (At n EndTurn)
        ≡ with_step n (after_end_turn (w.cells n)) None w }
    ensures set_key { (w : WakeWorld Cell) (n k : ℕ) → after ping_kind w (SetKey n k)
        ≡ with_permit (w.cells n).key
        (with_place_taken k (with_step n (after_set_key k (w.cells n)) (owed_at k (w.cells n)) w)) }
    ensures clear_key { (w : WakeWorld Cell) (n : ℕ) (by_drop : Bool)
        → after ping_kind w (ClearKey n by_drop)
        ≡ with_permit (w.cells n).key (with_step n (after_clear_key by_drop (w.cells n)) None w) }
    ensures open_turn { (w : WakeWorld Cell) (n k : ℕ) → (after ping_kind w (OpenTurn n k)).cells
        ≡ with_cell n (after_open_turn k (w.cells n)) w.cells }
    ensures pass { (w : WakeWorld Cell) (n k : ℕ) → (after ping_kind w (OpenTurn n k)).passes
        ≡ (if opens k (w.cells n) then less_one k w.passes else w.passes) }
    ensures channel_ring { (w : WakeWorld ChannelPast) (n : ℕ)
        → after channel_kind w (At n channel.Ring)
        ≡ with_step n (channel.past_with_bell (after_ping (w.cells n).now.cell) (w.cells n))
        (debt_of (w.cells n).now.cell) w }
    ensures channel_close { (w : WakeWorld ChannelPast) (n : ℕ)
        → after channel_kind w (At n channel.Close)
        ≡ with_step n (channel.past_with_bell (after_close (w.cells n).now.cell) (w.cells n))
        (debt_of (w.cells n).now.cell) w }
    ensures put { (w : WakeWorld ChannelPast) (n message : ℕ)
        → after channel_kind w (At n (channel.Put message))
        ≡ with_step n (channel.channel_after (channel.Put message) (w.cells n))
        (debt_of (w.cells n).now.cell) w }
    ensures put_now { (p : ChannelPast) (message : ℕ)
        → (channel.channel_after (channel.Put message) p).now ≡ after_put message p.now }
    ensures pop { (w : WakeWorld ChannelPast) (n : ℕ) → after channel_kind w (At n channel.Pop)
        ≡ with_step n (channel.channel_after channel.Pop (w.cells n)) None w }
    ensures pop_now { (p : ChannelPast)
        → (channel.channel_after channel.Pop p).now ≡ after_pop p.now }
    ensures take { (w : WakeWorld ChannelPast) (n : ℕ)
        → after channel_kind w (At n channel.Take)
        ≡ with_step n (channel.channel_after channel.Take (w.cells n))
        (owed_by channel_kind (w.cells n) (channel.channel_after channel.Take (w.cells n))) w }
    ensures take_now { (p : ChannelPast)
        → (channel.channel_after channel.Take p).now ≡ after_take p.now }
    ensures channel_set_key { (k : ℕ) (p : ChannelPast)
        → (channel_kind.keyed k p).now ≡ with_bell (after_set_key k p.now.cell) p.now }
    ensures channel_clear_key { (by_drop : Bool) (p : ChannelPast)
        → (channel_kind.unkeyed by_drop p).now
        ≡ with_bell (after_clear_key by_drop p.now.cell) p.now }
    ensures channel_open_turn { (k : ℕ) (p : ChannelPast) → channel_after_open_turn k p.now
        ≡ (if channel_kind.opens k p then (channel_kind.opened p).now else p.now) }
    ensures channel_end_turn { (w : WakeWorld ChannelPast) (n : ℕ)
        → after channel_kind w (At n channel.EndTurn)
        ≡ with_step n (channel.past_with (channel_after_end_turn (w.cells n).now) (w.cells n))
        (owed_if (is_early (w.cells n).now.last) (w.cells n).now.cell) w }
    ensures executor_own { (w : WakeWorld ExecutorPast) (n : ℕ) (s : executor.ExecutorStep)
        → after executor_kind w (At n s)
        ≡ with_step n (executor.past_after s (w.cells n))
        (owed_by_step (w.cells n).now (executor.executor_after s (w.cells n).now)) w }
    ensures executor_now { (p : ExecutorPast) (s : executor.ExecutorStep)
        → (executor.past_after s p).now ≡ executor.executor_after s p.now }
    ensures executor_open_turn { (k : ℕ) (p : ExecutorPast) → executor_after_open_turn k p.now
        ≡ (if executor_kind.opens k p then (executor_kind.opened p).now else p.now) }
    ensures executor_set_key { (k : ℕ) (p : ExecutorPast)
        → (executor_kind.keyed k p).now ≡ executor_after_set_key k p.now }
    ensures executor_clear_key { (by_drop : Bool) (p : ExecutorPast)
        → (executor_kind.unkeyed by_drop p).now ≡ executor_after_clear_key by_drop p.now }
    ensures open_place { (w : WakeWorld Cell) (k : ℕ) → after ping_kind w (OpenPlace k)
        ≡ record w { board = after_open_place k w.board; opened = and_one k w.opened } }
    ensures close_place { (w : WakeWorld Cell) (k : ℕ) → after ping_kind w (ClosePlace k)
        ≡ record w { board = after_close_place k w.board; permits = less_one k w.permits } }
    ensures post { (w : WakeWorld Cell) (k : ℕ) → after ping_kind w (Post k)
        ≡ record w {
          board = after_post k w.board;
          debts = less_one k w.debts;
          wakeups = w.wakeups + one (wakes k w.board);
        } }
    ensures look { (w : WakeWorld Cell) → after ping_kind w Look
        ≡ record w { loop = if any_marked w.board then Awake else Looked } }
    ensures unpost { (w : WakeWorld Cell) (below : ℕ)
        → (after ping_kind w (Unpost below)).board ≡ after_unpost below w.board }
    ensures unposted { (w : WakeWorld Cell) (below k : ℕ)
        → (after ping_kind w (Unpost below)).passes k
        ≡ w.passes k + one (is_marked k w.board && nat_lt k below) }
{}
