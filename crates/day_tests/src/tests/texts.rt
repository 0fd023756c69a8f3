//! The steps of a day, and the same as a script.

/// A step: an order to a controller, or, to nobody, that the message that was sent last is taken;
/// what it writes, and what where it was made already; and the order by which its message is sent
/// once more, if one is.
pub struct Step {
    pub to: &'static str,
    pub text: &'static str,
    pub at: u64,
    pub line: &'static str,
    pub again: &'static str,
    pub resend: &'static str,
}

/// The steps.
pub static STEPS: [Step; 7] = [
    Step {
        to: "mis",
        text: r#"{"Order":"Spawn","Node":"n1","Worker":"press","RW":["r2"]}"#,
        at: 100,
        line: "Spawned S1\n",
        again: "Refused 12 NotHeld",
        resend: r#"{"Order":"Resend","SpawnID":"S1"}"#,
    },
    Step {
        to: "",
        text: "",
        at: 110,
        line: "Taken S1\n",
        again: "Again S1\n",
        resend: "",
    },
    Step {
        to: "",
        text: "",
        at: 115,
        line: "Noted S1\n",
        again: "Noted S1\n",
        resend: "",
    },
    Step {
        to: "press",
        text: r#"{"Order":"Edit","SpawnID":"S1","Edit":{"Edit":"SetStatus","Node":"n1","Status":"InProgress"}}"#,
        at: 120,
        line: "Edited\n",
        again: "Edited\n",
        resend: "",
    },
    Step {
        to: "press",
        text: r#"{"Order":"Finish","SpawnID":"S1","Status":"Completed"}"#,
        at: 130,
        line: "Finished S1\n",
        again: "Refused 31 NotOpen",
        resend: r#"{"Order":"Resend","SpawnID":"S1"}"#,
    },
    Step {
        to: "",
        text: "",
        at: 135,
        line: "Merged S1\n",
        again: "Already S1\n",
        resend: "",
    },
    Step {
        to: "",
        text: "",
        at: 140,
        line: "Acked S1\n",
        again: "Acked S1\n",
        resend: "",
    },
];

/// The same events as a script, with the shop in its beginning.
pub const SCRIPT: &str =
    r#"{"Master":"mis","Workers":["press"],"Events":[{"At":100,"Event":"Order","To":"mis","Order":{"Order":"Spawn","Node":"n1","Worker":"press","RW":["r2"]}},{"At":110,"Event":"Deliver","Deliver":1},{"At":115,"Event":"Deliver","Deliver":2},{"At":120,"Event":"Order","To":"press","Order":{"Order":"Edit","SpawnID":"S1","Edit":{"Edit":"SetStatus","Node":"n1","Status":"InProgress"}}},{"At":130,"Event":"Order","To":"press","Order":{"Order":"Finish","SpawnID":"S1","Status":"Completed"}},{"At":135,"Event":"Deliver","Deliver":3},{"At":140,"Event":"Deliver","Deliver":4}],"Ticket":{"ID":"n0","JobID":"J1","Type":"Product","JobPartID":"p0","Status":"Waiting","ResourcePool":[{"ID":"r1","Name":"Media","Class":"Consumable","Status":"Available"},{"ID":"r2","Name":"Component","Class":"Quantity","Status":"Unavailable"}],"JDF":[{"ID":"n1","Type":"ConventionalPrinting","JobPartID":"p1","Status":"Waiting","ResourceLinkPool":[{"Usage":"Input","rRef":"r1"},{"Usage":"Output","rRef":"r2"}]}]}}"#;
