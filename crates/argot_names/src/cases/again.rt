// Names that are declared again, and names that aren't.

/// The cases.
pub const CASES: &str = r#"
== twice in a package
-- a.go --
package main
var x int
func main() {}
-- b.go --
package main
func x() {} // ERROR 6 declared again
== main twice
-- main.go --
package main
func main() {}
func main() {} // ERROR 6 declared again
== init twice
-- main.go --
package main
func init() {}
func init() {}
func main() {}
== blank twice
-- main.go --
package main
var _ int
var _ = 1
func _() {}
func main() {}
== methods do not clash
-- main.go --
package main
type t int
type u int
func (t) m() {}
func (u) m() {}
func m() {}
func main() {}
== import twice in a file
-- main.go --
package main
import "os"
import "os" // ERROR 8 declared again
func main() {}
== import in two files
-- a.go --
package main
import "os"
func main() {
    os.Exit(0)
}
-- b.go --
package main
import "os"
func f() { os.Exit(1) }
== import behind a declaration
-- a.go --
package main
var os int
func main() {}
-- b.go --
package main
import "os" // ERROR 8 declared again
func f() { os.Exit(1) }
== import before a declaration
-- a.go --
package main
import "os"
func main() {
    os.Exit(1)
}
-- b.go --
package main
var os int // ERROR 5 declared again
== blank imports do not clash
-- main.go --
package main
import _ "os"
import _ "fmt"
func main() {}
== twice in a function
-- main.go --
package main
func main() {
    var a int
    var a int // ERROR 9 declared again
    _ = a
}
== twice in one specification
-- main.go --
package main
func main() {
    var a, a int // ERROR 12 declared again
    _ = a
}
== again behind a short declaration
-- main.go --
package main
func main() {
    a := 1
    var a int // ERROR 9 declared again
    _ = a
}
== parameter declared again
-- main.go --
package main
func f(a int) {
    var a int // ERROR 9 declared again
    _ = a
}
func main() {}
== result declared again
-- main.go --
package main
func f() (a int) {
    type a int // ERROR 10 declared again
    return
}
func main() {}
== shadowed in an inner block
-- main.go --
package main
func main() {
    a := 1
    {
        var a string
        _ = a
    }
    _ = a
}
== short declaration assigns
-- main.go --
package main
func main() {
    a := 1
    a, b := 2, 3
    _, _ = a, b
}
== again before unknown
-- main.go --
package main
func main() {
    y = 1
    var a int
    var a int // ERROR 9 declared again
}
== the first of two again
-- a.go --
package main
func main() {
    var b int
    var b int // ERROR 9 declared again
}
-- b.go --
package main
var main int
"#;
