//! Kinds of texts, and the patterns that they are made of. A pattern has `@` for a name, `#` for a number, `^` for an operator
//! and `~` for words of a comment, and its brackets are balanced, so that patterns may stand in any order.

/// A kind of text.
#[derive(Clone, Copy, Debug, PartialEq, Eq)]
pub enum Sample {
    /// A bundle, with blanks, line breaks and comments.
    Script,
    /// The same on few lines, with short names.
    Minified,
    /// TypeScript, with functions, types and generics.
    TypeScript,
    /// Declarations of types.
    Declarations,
    /// A module of an application: imports, and then code.
    Module,
    /// Templates with substitutions, some nested.
    Templates,
    /// Names outside ASCII.
    ForeignNames,
    /// Operators and names of one letter.
    Operators,
    /// Numbers of all forms.
    Numbers,
    /// Strings full of escapes.
    Escapes,
    /// Data as JSON has it.
    Data,
    /// Comments and strings in Chinese.
    Chinese,
}

const SCRIPT: &[&str] = &[
    "function @( @, @ ) {\n\n\tconst @ = @.@;\n\n\tfor ( let i = 0, l = @.length; i < l; i ++ ) {\n\n\t\tif ( @[ i ].@ === @ && ! @.@( @ ) ) {\n\n\t\t\t@.@( @[ i ], # ^ @ );\n\n\t\t} else {\n\n\t\t\treturn @.@ + ( @.@ - @ ) / #;\n\n\t\t}\n\n\t}\n\n}\n\n",
    "class @ extends @ {\n\n\tconstructor( @, @ = # ) {\n\n\t\tsuper( @ );\n\n\t\tthis.@ = '@';\n\t\tthis.@ = @ !== undefined ? @ : #;\n\t\tthis.@ = new @();\n\n\t}\n\n\t@( @ ) {\n\n\t\treturn new this.constructor().@( this, @ );\n\n\t}\n\n}\n\n",
    "/**\n * ~\n *\n * ~\n * ~\n */\n",
    "\t// ~\n\n",
    "const @ = [\n\t#, #, #, #,\n\t- #, #, #, - #,\n\t#, #, 0.00125, #\n];\n\n",
    "if ( @.@ ^ @ ) {\n\n\t@.@[ @ ] = @.@( @, '@', \"~\" );\n\t@.@.@( @ );\n\n}\n\n",
    "var @ = { @: #, @: '@', @: function () { return @.@; }, @: @ => @.@ ^ @ };\n\n",
    "switch ( @.@ ) {\n\n\tcase '@':\n\t\t@ += @;\n\t\tbreak;\n\n\tdefault:\n\t\tthrow new Error( '~' + @ );\n\n}\n\n",
    "@.@ = @.replace( /[@]+\\/(\\d+)/g, '@' ).@( @ );\n@ = @ / # / @;\n",
    "try {\n\n\tawait @.@( `~ ${ @ }` );\n\n} catch ( @ ) {\n\n\tconsole.error( '~', @ );\n\n}\n\n",
];

const MINIFIED: &[&str] = &[
    "function e(t,n){var r=t.@,i=n||{};return r&&r.@?r.@(t,n):i[t]||(i[t]=new r(n,#))}",
    "var t=this.@,n=t.@(#),r=0;for(;r<n.length;r++)t[n[r]]^=null,t.@(n[r]);",
    "if(!e||\"@\"===typeof e)return t(e,n,void 0!==r?r:#);",
    "!function(e,t){\"use strict\";e.@=t,e.@={@:#,@:!0,@:function(e){return e.@^t}}}(this,@);",
    "a.push(e.@),b=c?d:e?f:g,h(function(e){return e/#});",
    "n.@.@=function(e){var t=e.@,n=/^@$/i.test(t);return n?null:t};",
];

const TYPESCRIPT: &[&str] = &[
    "export function @<T extends @, U = @>(@: @<T>, @?: readonly U[]): @ is T {\n    const @ = @.@ as unknown as Map<string, @<T>>;\n    if (@?.@ !== undefined && !(@.flags & @.@)) {\n        return @(@, (@, @) => @ ^ @.@!);\n    }\n    return @ ?? #;\n}\n\n",
    "// ~\nfunction @(@: @, @: @ | undefined): @ {\n    switch (@.kind) {\n        case SyntaxKind.@:\n            return @((<@>@).@, /*@*/ true);\n        case SyntaxKind.@:\n            return @.@(@, @ => @(@.@));\n    }\n    return undefined;\n}\n\n",
    "interface @ extends @<@> {\n    readonly @: @;\n    @?: (@: @, @: number) => void; // ~\n    [@: string]: @ | null;\n}\n\n",
    "type @<T> = T extends (infer U)[] ? @<U> : T extends { @: infer V } ? V : never;\n\n",
    "/** ~ */\nexport abstract class @<T = {}> implements @ {\n    private readonly @ = new Set<@<T>>();\n    constructor(protected @: @, public @ = 1__0) { super(); }\n    public get @(): Array<@<T>> { return [...this.@].filter(@ => @.@ < # && @.@ > (@ << #)); }\n}\n\n",
    "const @ = async <T,>(@: T) => { await @(@ as T); };\nlet @ = (@.@(@) < (@ + #)) ? @ : (@ => @)(@);\n\n",
    "enum @ { @ = 1 << 0, @ = 1 << 1, @ = @ | @, }\n\n",
    "/**\n * ~\n * ~\n */\nexport namespace @ { export const @: (@: @) => @ = (@) => ({ @, @: @(@) }); }\n\n",
];

const DECLARATIONS: &[&str] = &[
    "/** ~ */\ninterface @ {\n    readonly @: @;\n    @: string;\n    @?: @ | null;\n    @(@: @, @?: boolean): void;\n    @<K extends keyof @>(@: K, @: (this: @, @: @[K]) => any): void;\n}\n\n",
    "declare var @: {\n    prototype: @;\n    new(): @;\n};\n\n",
    "type @ = \"@\" | \"@\" | \"@\";\n\n",
    "declare function @(@: string, @?: @): @;\ndeclare const @: number;\n\n",
    "interface @Map {\n    \"@\": @;\n    \"@\": @;\n    \"@\": @;\n}\n\n",
    "/**\n * ~\n * ~\n */\n",
];

const MODULE: &[&str] = &[
    "import { @, @ } from './@';\n",
    "import @ from \"@\";\n",
    "import * as @ from '../@/@.js';\n",
    "export { @ } from './@';\n",
    "const @ = await import('./@');\n",
    "// ~\nexport function @(@, @) {\n  return @.@(@) ^ @[@];\n}\n",
    "export const @ = (@) => {\n  const { @, @ } = @;\n  if (@ ^ #) { return null; }\n  return `@-${@.@}`;\n};\n",
    "export default { name: '@', @: { @: [#, #] }, @() { this.@ = @; } };\n",
];

const TEMPLATES: &[&str] = &[
    "const @ = `~ ${ @ } @ ${ @.@( `# ${ @ }` ) } ~`;\n",
    "@( `${ @ }`, `${ @[ # ] }: ${ @ ? `<b>${ @ }</b>` : '' }` );\n",
    "return `@ { @: ${ # }px; @: ${ @ }\\n }\\u0041`;\n",
    "@`~`;\n",
];

const FOREIGN_NAMES: &[&str] = &[
    "größe.länge = überprüfe( schlüssel, ñandú );\n",
    "функция( значение, ключ, имя );\nconst результат = данные.список;\n",
    "名前 = 変数.値( 結果, データ );\n",
    "let μέγεθος = πίνακας.αρχή + τιμή;\n",
    "@( été, naïve, 变量 ).数量 = 对象;\n",
];

const OPERATORS: &[&str] = &[
    "a+=b<<c>>>d&&e||f??g!==h**i--;",
    "j=!k&l|m^n%o>=p<=q==r!=s;",
    "t>>=u;v**=w;x&&=y;z||=a;b??=c;d<<=e;f|=g;h?.i;j=>k;",
    "l++;--m;~n;o-p*q/r;s<t>u;...v;",
];

const NUMBERS: &[&str] = &[
    "0x1F,1_000,3.14e-10,0b1010,0o17,.5,5.,123n,",
    "1e400,0xdead_beef,0.1,42,65535,2147483648,",
    "6.02214076e23,9007199254740993,0b1111_0000n,0XABCn,",
    "7,8,9,10,128,1.7976931348623157e308,",
];

const ESCAPES: &[&str] = &[
    "'\\u{1F600}\\n\\x41\\u0041 ~','\\\\\\'\\\"\\t\\r\\n',",
    "\"\\u4e2d\\u6587\\u{41}\\0 \\\n @\",",
    "'\\x1b[31m~\\x1b[0m\\n','\\ud83d\\ude00',",
];

const DATA: &[&str] = &[
    "{\"@\":#,\"@\":\"~\",\"@\":[#,#,-12.5,1e10],\"@\":null,\"@\":true},\n",
    "{\n  \"id\": 48151,\n  \"@\": { \"@\": \"@\", \"@\": [ \"@\", \"@\" ] },\n  \"@\": false\n},\n",
    "[[-73.98513,40.74881],[-73.98402,40.75012],[#,#]],\n",
];

const CHINESE: &[&str] = &[
    "// 这个函数返回对象的名称，如果没有找到则返回空值。\n@( '找不到指定的文件：请检查路径' );\n",
    "/*\n * 初始化应用程序的全部配置，并且在需要的时候重新载入。\n * 参数：配置对象以及可选的回调函数\n */\n",
    "const @ = \"用户登录成功，欢迎回来\"; // 显示给用户的消息\n",
];

impl Sample {
    /// The patterns that its texts are made of.
    pub(crate) fn patterns(self) -> &'static [&'static str] {
        match self {
            Sample::Script => SCRIPT,
            Sample::Minified => MINIFIED,
            Sample::TypeScript => TYPESCRIPT,
            Sample::Declarations => DECLARATIONS,
            Sample::Module => MODULE,
            Sample::Templates => TEMPLATES,
            Sample::ForeignNames => FOREIGN_NAMES,
            Sample::Operators => OPERATORS,
            Sample::Numbers => NUMBERS,
            Sample::Escapes => ESCAPES,
            Sample::Data => DATA,
            Sample::Chinese => CHINESE,
        }
    }
}
