// The numbers of an instance and of a schedule as records: tasks, files, runs and move starts.
ghost use Rattle.std.specs.Prelude.{◌≡◌};
ghost use Rattle.model.specs.Layout.{no_numbers, unplaced};

use arrayvec::ArrayVec;
use rules::Board;

// What a sheet says of a task: its run times and its working memory, 0 if it has none.
#[derive(Clone, Copy, Default)]
pub struct Task {
    pub on_blue: u64,
    pub on_red: u64,
    pub work: u64,
}

// What a sheet says of a file: the tasks that make and read it, counted from 0, its size F and its move time C.
#[derive(Clone, Copy, Default)]
pub struct File {
    pub maker: u64,
    pub reader: u64,
    pub size: u64,
    pub move_time: u64,
}

// The tasks and the files of an instance.
#[derive(Drop)]
pub struct Numbers {
    pub tasks: ArrayVec<Task, { Board::MAX_TASKS }>,
    pub files: ArrayVec<File, { Board::MAX_FILES }>,
}

impl Numbers {
    ghost use Rattle.std.specs.Prelude.{◌≡◌, ◌<◌, ◌++◌, ◌∷◌, [], length};
    ghost use Rattle.rules.specs.Limits.{max_tasks, max_files};
    ghost use Rattle.model.specs.Layout.{no_numbers};

    // Of no task and no file.
    pub fn new() -> Self
        ensures { result ≡ no_numbers }
    {
        Numbers {
            tasks: ArrayVec::new(),
            files: ArrayVec::new(),
        }
    }

    // Of no task and no file again.
    pub fn clear(&mut self)
        ensures { self.new ≡ no_numbers }
    {
        self.tasks.clear();
        self.files.clear();
    }

    // With a task behind those that are there.
    pub fn push_task(&mut self, on_blue: u64, on_red: u64, work: u64)
        requires { length self.old.tasks.items < max_tasks }
        ensures tasks { self.new.tasks.items ≡ self.old.tasks.items ++ record { on_blue = on_blue; on_red = on_red; work = work } ∷ [] }
        ensures files { self.new.files ≡ self.old.files }
    {
        self.tasks.push(Task {
            on_blue,
            on_red,
            work,
        });
    }

    // With a file behind those that are there.
    pub fn push_file(&mut self, maker: u64, reader: u64, size: u64, move_time: u64)
        requires { length self.old.files.items < max_files }
        ensures files { self.new.files.items ≡ self.old.files.items ++
            record { maker = maker; reader = reader; size = size; move_time = move_time } ∷ [] }
        ensures tasks { self.new.tasks ≡ self.old.tasks }
    {
        self.files.push(File {
            maker,
            reader,
            size,
            move_time,
        });
    }
}

// Where and when a task runs: processor 0 if it is not placed. Processors count from 1, and the rules' run has 0 for none, so the code's has.
#[derive(Clone, Copy)]
pub struct Run {
    pub processor: u64,
    pub start: u64,
}

// The run of each task, and the move start of each file; those past the counts of the job mean nothing. Arrays, not lists of the job's length:
// a planner fills them in its own order, and such lists would carry in each contract that they are as long as the job's.
#[derive(Clone, Copy)]
pub struct Schedule {
    pub runs: [Run; Board::MAX_TASKS],
    pub moves: [u64; Board::MAX_FILES],
}

impl Schedule {
    ghost use Rattle.std.specs.Prelude.{◌≡◌, ◌<◌};
    ghost use Rattle.rules.specs.Limits.{max_tasks, max_files};
    ghost use Rattle.model.specs.Layout.{WholeSchedule, entries_of, unplaced, with_run_at, with_move_at};

    // No task placed.
    pub fn new() -> Self
        ensures { result ≡ unplaced }
    {
        let run = Run {
            processor: 0,
            start: 0,
        };
        Schedule {
            runs: [run; Board::MAX_TASKS],
            moves: [0; Board::MAX_FILES],
        }
    }

    // The processor of task i, 0 if it is not placed.
    pub fn processor(&self, i: usize) -> u64
        requires { i < max_tasks }
        ensures { result ≡ (entries_of self.now).processor i }
    {
        self.runs[i].processor
    }

    // The start of task i.
    pub fn start(&self, i: usize) -> u64
        requires { i < max_tasks }
        ensures { result ≡ (entries_of self.now).start i }
    {
        self.runs[i].start
    }

    // The move start of file k.
    pub fn move_start(&self, k: usize) -> u64
        requires { k < max_files }
        ensures { result ≡ (entries_of self.now).move_start k }
    {
        self.moves[k]
    }

    // Writes the run of task i.
    pub fn set_run(&mut self, i: usize, processor: u64, start: u64)
        requires { i < max_tasks }
        ensures schedule_after { self.new ≡ with_run_at self.old i processor start }
        ensures schedule_len { WholeSchedule self.old × WholeSchedule self.new }
    {
        self.runs[i] = Run { processor, start };
    }

    // Writes the move start of file k.
    pub fn set_move_start(&mut self, k: usize, start: u64)
        requires { k < max_files }
        ensures schedule_after { self.new ≡ with_move_at self.old k start }
        ensures schedule_len { WholeSchedule self.old × WholeSchedule self.new }
    {
        self.moves[k] = start;
    }
}
